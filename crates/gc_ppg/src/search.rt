ghost use Rattle.std.specs.Prelude.{◌≡◌, ◌==◌, IfSome, Some};
ghost use Rattle.std.specs.List.{find};
ghost use Rattle.std.specs.Option.{option_copied};
ghost use Rattle.std.specs.Ordering.{nat_cmp, on};
ghost use Rattle.gc_base.specs.Ascending.{Ascends};

use crate::kind::Element;
use gc_base::Id;

// The element of an identity, where elements ascend. Where identities lie close together, it is looked
// for first where it stands if none is left out.
pub(crate) fn find<T: Element>(elements: &[T], id: Id) -> Option<&T>
    requires { Ascends (on T.id_of nat_cmp) elements.now }
    ensures { option_copied result ≡ find (λ x. T.id_of x == id) elements.now }
{
    match likely(elements, id) {
        Some(element) => Some(element),
        None => halved(elements, id),
    }
}

// The element of an identity, if it stands where it does with none left out before it.
fn likely<T: Element>(elements: &[T], id: Id) -> Option<&T>
    requires { Ascends (on T.id_of nat_cmp) elements.now }
    ensures { IfSome result (λ x. Some x.now ≡ find (λ y. T.id_of y == id) elements.now) }
{
    let element = elements.get(number_of(elements, id))?;
    if element.id() == id {
        Some(element)
    } else {
        None
    }
}

// By how much an identity is above the first one.
fn number_of<T: Element>(elements: &[T], id: Id) -> usize {
    match elements.first() {
        None => 0,
        Some(first) => id.get().saturating_sub(first.id().get()) as usize,
    }
}

// The element of an identity, by halving.
fn halved<T: Element>(elements: &[T], id: Id) -> Option<&T>
    requires { Ascends (on T.id_of nat_cmp) elements.now }
    ensures { option_copied result ≡ find (λ x. T.id_of x == id) elements.now }
{
    match elements.binary_search_by(|element| element.id().cmp(&id)) {
        Ok(place) => Some(&elements[place]),
        Err(_) => None,
    }
}
