ghost use Rattle.std.specs.Prelude.{◌≡◌, ◌++◌, IfOk, OnOk};
ghost use Rattle.std.specs.Option.{option_copied};
ghost use Rattle.gc_rows.specs.Tables.{HasExactly};
ghost use Rattle.gc_build.specs.AllPaths.{span_if, span_of, spans_of};

use crate::making::Making;
use crate::standing::{Instances, has_walk};
use gc_base::{Id, Memory, Sym};
use gc_rows::{Datum, RowView};

/// Two nodes between which an ALL path means all walks.
#[derive(Clone, Copy, PartialEq, Eq, PartialOrd, Ord)]
pub(crate) struct Span {
    pub from: Id,
    pub to: Id,
}

/// The spans for which a path stands in kept instances, in the order of the rows.
pub(crate) fn spans_of(
    making: &Making<'_>,
    kept: &Instances<'_>,
    path: Sym,
) -> Result<Vec<Span>, Memory>
    ensures { IfOk result (λ spans. spans.items ≡ spans_of making.now kept.now path) }
{
    let setting = making.setting;
    let table = setting.table;
    let own = kept.of_path(path);
    let mut spans = Vec::new(setting.alloc);
    for place in 0..table.len() {
        let is_kept = has_walk(kept, path, own, place);
        add_row(&mut spans, path, is_kept, &table.row(place))?;
    }
    Ok(spans)
}

// Adds the span that a path stands for on a row, if an instance is kept there that has the path.
fn add_row(spans: &mut Vec<Span>, path: Sym, is_kept: bool, row: &RowView<'_>) -> Result<(), Memory>
    ensures { OnOk result (spans.new.items ≡ spans.old.items ++ span_if path is_kept row.now) }
{
    if is_kept {
        add_span(spans, row.get(path))
    } else {
        Ok(())
    }
}

// Adds the span that a variable stands for, if it stands for one.
fn add_span(spans: &mut Vec<Span>, datum: Option<&Datum>) -> Result<(), Memory>
    ensures { OnOk result (spans.new.items ≡ spans.old.items ++ span_of (option_copied datum.entry)) }
{
    if let Some(Datum::Span { from, to }) = datum {
        spans.push(Span {
            from: *from,
            to: *to,
        })?;
    }
    Ok(())
}

/// The same spans, each once.
pub(crate) fn each_once(mut spans: Vec<Span>) -> Result<Vec<Span>, Memory>
    ensures { IfOk result (λ once. HasExactly spans.items once.items) }
{
    spans.sort()?;
    spans.dedup();
    Ok(spans)
}
