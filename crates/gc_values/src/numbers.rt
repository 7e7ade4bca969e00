ghost use Rattle.std.specs.Prelude.{◌≡◌};
ghost use Rattle.gc_values.specs.Arithmetic.{fitting, one, result_of, number_value, operand_of, numbers_of, operated, negated, sum_operation, product_operation};
ghost use Rattle.gc_values.specs.declared.val.Val.TheVariants.{Set};
ghost use Rattle.gc_values.specs.References.{literal_seen, literals_seen, value_seen};

use crate::literal_ref::LiteralRef;
use crate::literals::Literals;
use crate::val::Why;
use crate::val_ref::ValRef;
use gc_expr::ProductOp;

/// What a value is as an operand.
#[derive(Clone, Copy)]
pub(crate) enum Operand {
    /// It is undefined, for a reason.
    Missing(Why),
    /// It is the empty set.
    Empty,
    /// It is one number.
    Number(i64),
    /// It is something else.
    Other,
}

/// The operations of sums and products.
#[derive(Clone, Copy)]
pub(crate) enum Operation {
    Plus,
    Minus,
    Times,
    Divided,
    Remainder,
}

impl Operand {
    /// What a value is as an operand.
    pub(crate) fn of(value: &ValRef<'_>) -> Operand
        ensures { result ≡ operand_of (value_seen value.now) }
    {
        match value {
            ValRef::Undefined(why) => Operand::Missing(*why),
            ValRef::Set(values) => Operand::of_literals(values),
            ValRef::Element(_) | ValRef::Walked => Operand::Other,
        }
    }

    // What a set is as an operand.
    fn of_literals(values: &Literals<'_>) -> Operand
        ensures { result ≡ operand_of (Set (literals_seen values.now)) }
    {
        match values.split_first() {
            None => Operand::Empty,
            Some(first) => {
                if first.rest.is_empty() {
                    Operand::of_literal(&first.literal)
                } else {
                    Operand::Other
                }
            }
        }
    }

    // What a single literal is as an operand.
    fn of_literal(literal: &LiteralRef<'_>) -> Operand
        ensures { result ≡ operand_of (one (literal_seen literal.now)) }
    {
        match literal {
            LiteralRef::Number(number) => Operand::Number(*number),
            LiteralRef::Truth(_) | LiteralRef::Text(_) => Operand::Other,
        }
    }
}

impl Operation {
    /// What a later part of a sum does to what is before it.
    pub(crate) fn of_sum(minus: bool) -> Operation
        ensures { result ≡ sum_operation minus }
    {
        if minus {
            Operation::Minus
        } else {
            Operation::Plus
        }
    }

    /// What a later part of a product does to what is before it.
    pub(crate) fn of_product(op: ProductOp) -> Operation
        ensures { result ≡ product_operation op }
    {
        match op {
            ProductOp::Times => Operation::Times,
            ProductOp::Divided => Operation::Divided,
            ProductOp::Remainder => Operation::Remainder,
        }
    }

    /// The value of the operation on two operands.
    pub(crate) fn on<'a>(self, a: &ValRef<'a>, b: &ValRef<'a>) -> ValRef<'a>
        ensures { value_seen result ≡ operated self (value_seen a.now) (value_seen b.now) }
    {
        match two_numbers(Operand::of(a), Operand::of(b)) {
            Err(why) => ValRef::Undefined(why),
            Ok(None) => ValRef::Set(Literals::Empty),
            Ok(Some((m, n))) => number(self.result(m, n)),
        }
    }

    // The number, or why there is none.
    fn result(self, m: i64, n: i64) -> Result<i64, Why>
        ensures { result ≡ result_of self m n }
    {
        match self {
            Operation::Plus => fitting(m.checked_add(n)),
            Operation::Minus => fitting(m.checked_sub(n)),
            Operation::Times => fitting(m.checked_mul(n)),
            Operation::Divided => quotient(m, n),
            Operation::Remainder => remainder(m, n),
        }
    }
}

// The numbers of two operands, taken from left to right.
fn two_numbers(a: Operand, b: Operand) -> Result<Option<(i64, i64)>, Why>
    ensures { result ≡ numbers_of a b }
{
    match a {
        Operand::Missing(why) => Err(why),
        Operand::Empty => match b {
            Operand::Missing(why) => Err(why),
            _ => Ok(None),
        },
        Operand::Number(m) => match b {
            Operand::Missing(why) => Err(why),
            Operand::Empty => Ok(None),
            Operand::Number(n) => Ok(Some((m, n))),
            Operand::Other => Err(Why::WrongKind),
        },
        Operand::Other => match b {
            Operand::Missing(why) => Err(why),
            Operand::Empty => Ok(None),
            _ => Err(Why::WrongKind),
        },
    }
}

/// The value of an operand with the other sign.
pub(crate) fn negated<'a>(a: &ValRef<'_>) -> ValRef<'a>
    ensures { value_seen result ≡ negated (value_seen a.now) }
{
    match Operand::of(a) {
        Operand::Missing(why) => ValRef::Undefined(why),
        Operand::Empty => ValRef::Set(Literals::Empty),
        Operand::Number(n) => number(fitting(n.checked_neg())),
        Operand::Other => ValRef::Undefined(Why::WrongKind),
    }
}

/// The set of a number, or the reason why there is none.
pub(crate) fn number<'a>(number: Result<i64, Why>) -> ValRef<'a>
    ensures { value_seen result ≡ number_value number }
{
    match number {
        Ok(number) => ValRef::Set(Literals::One(LiteralRef::Number(number))),
        Err(why) => ValRef::Undefined(why),
    }
}

// A number that fits, or overflow.
fn fitting(number: Option<i64>) -> Result<i64, Why>
    ensures { result ≡ fitting number }
{
    match number {
        Some(number) => Ok(number),
        None => Err(Why::Overflow),
    }
}

fn quotient(m: i64, n: i64) -> Result<i64, Why>
    ensures { result ≡ result_of Operation.Divided m n }
{
    if n == 0 {
        return Err(Why::ZeroDivisor);
    }
    fitting(m.checked_div(n))
}

// The least number by -1 leaves nothing, though its quotient does not fit.
fn remainder(m: i64, n: i64) -> Result<i64, Why>
    ensures { result ≡ result_of Operation.Remainder m n }
{
    if n == 0 {
        return Err(Why::ZeroDivisor);
    }
    Ok(m.wrapping_rem(n))
}
