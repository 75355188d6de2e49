//! What no clause shows: that copies are made where there is memory. What literals and predicates stand for.

ghost use Rattle.std.specs.Prelude.{◌≡◌, ◌∷◌, [], codes, pos, true, IfOk};
ghost use Rattle.lt_tables.specs.Query.{all_rows, both, bool_literal, compares, either, int_literal, is_null, negated, null_literal, text_literal};
ghost use Rattle.lt_terms.specs.declared.CmpOp.TheVariants as ops;
ghost use Rattle.lt_pred.specs.View.{view_literals, view_pred};

use lt_core::TextRefusal;
use lt_pred::{Boxed, CmpOp, List, Literal, Literals, Pred, Text};
use std::alloc::Global;
use std::test::Fail;

/// One literal of each form.
fn one_of_each(alloc: Global) -> Result<Literals, TextRefusal>
    ensures { IfOk result (λ ls. view_literals ls
        ≡ null_literal ∷ bool_literal true ∷ int_literal (pos 50) ∷ text_literal (codes "a") ∷ []) }
{
    let mut literals = List::new(alloc);
    literals.push(Literal::Null)?;
    literals.push(Literal::Bool(true))?;
    literals.push(Literal::Int(50))?;
    literals.push(Literal::Text(Text::from_slice(alloc, b"a")?))?;
    Ok(literals)
}

fn are_the_four(literals: &Literals) -> bool {
    match literals.as_slice() {
        [
            Literal::Null,
            Literal::Bool(true),
            Literal::Int(50),
            Literal::Text(text),
        ] => text.as_str() == "a",
        _ => false,
    }
}

#[test]
fn each_literal_is_copied(rt: HostRuntime) -> Result<(), Fail> {
    let literals = one_of_each(rt.alloc())?;
    assert!(rt; are_the_four(&literals.copy()?));
    Ok(())
}

fn negated_test(alloc: Global) -> Result<Pred, Fail>
    ensures { IfOk result (λ p. view_pred p ≡ negated (is_null (codes "a"))) }
{
    let null = Pred::IsNull(Text::from_slice(alloc, b"a")?);
    Ok(Pred::Not(Boxed::new(alloc, null)?))
}

fn alternative(alloc: Global) -> Result<Pred, Fail>
    ensures { IfOk result (λ p. view_pred p ≡ either all_rows (negated (is_null (codes "a")))) }
{
    let test = Boxed::new(alloc, negated_test(alloc)?)?;
    Ok(Pred::Or(Boxed::new(alloc, Pred::All)?, test))
}

/// A predicate with each form in it.
fn of_each_form(alloc: Global) -> Result<Pred, Fail>
    ensures { IfOk result (λ p. view_pred p
        ≡ both (either all_rows (negated (is_null (codes "a")))) (compares ops.Le (codes "b") (int_literal (pos 50)))) }
{
    let first = Boxed::new(alloc, alternative(alloc)?)?;
    let second = Pred::Cmp(CmpOp::Le, Text::from_slice(alloc, b"b")?, Literal::Int(50));
    Ok(Pred::And(first, Boxed::new(alloc, second)?))
}

/// Lets a value go; that there is one is what the test shows.
fn is_there<T: Drop>(_value: T) -> bool {
    true
}

#[test]
fn a_predicate_is_copied(rt: HostRuntime) -> Result<(), Fail> {
    let made = of_each_form(rt.alloc())?;
    assert!(rt; is_there(made.copy(rt.alloc())?));
    Ok(())
}
