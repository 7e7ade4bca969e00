ghost use Rattle.std.specs.Prelude.{◌≡◌, ◌∷◌, [], fold, slice_get, Some};
ghost use Rattle.std.specs.Option.{option_copied, option_to_list};
ghost use Rattle.gc_build_descriptions.specs.Faults.{faults_among, lesser};

use crate::fault::Fault;
use gc_build_recipe::Assignment;
use gc_values::Val;

/// The fault at the least row: one so far, or one of an assignment that has these values on these
/// rows of a group.
pub(crate) fn least_fault(
    so_far: Option<Fault>,
    assignment: &Assignment,
    places: &[u64],
    values: &[Val],
) -> Option<Fault>
    ensures { result ≡ fold lesser so_far (faults_among assignment.now places.now values.now) }
{
    let mut least = so_far;
    for (index, place) in places.iter().enumerate() {
        least = with_value(least, assignment, *place, value_at(values, index));
    }
    least
}

// The value at an index.
fn value_at(values: &[Val], index: usize) -> Option<&Val>
    ensures { option_copied result ≡ slice_get values.now index }
{
    values.get(index)
}

// The fault at the least row, where the assignment has this value on one row more.
fn with_value(
    least: Option<Fault>,
    assignment: &Assignment,
    place: u64,
    value: Option<&Val>,
) -> Option<Fault>
    ensures { result ≡ fold lesser least (faults_among assignment.now (place ∷ []) (option_to_list (option_copied value.entry))) }
{
    match value {
        Some(Val::Undefined(why)) => Some(lesser(
            least,
            Fault {
                at: assignment.token,
                row: place,
                why: *why,
            },
        )),
        _ => least,
    }
}

// The fault at the lesser row.
fn lesser(least: Option<Fault>, fault: Fault) -> Fault
    ensures { lesser least fault ≡ Some result }
{
    match least {
        None => fault,
        Some(least) => {
            if fault.row.cmp(&least.row).is_lt() {
                fault
            } else {
                least
            }
        }
    }
}
