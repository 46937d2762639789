//! What expressions give, or where they stop.
ghost use Rattle.std.specs.Prelude.{[], ◌∷◌};
ghost use Rattle.stm_steps.specs.Meaning.{evaluate};
ghost use Rattle.stm_program.specs.Syntax.{Arithmetic, Cat, Get, Rev, TextOf, NumOf};
ghost use Rattle.stm_steps.specs.Outcome.{and_then, found_or_wanted, given};
ghost use Rattle.stm_steps.specs.Steps.{get_key, rev_key};
ghost use Rattle.stm_steps.specs.Values.{key_in, text_of, concatenated};
ghost use Rattle.stm_steps.specs.declared.stop.Stop.TheVariants.{Wants};
ghost use Rattle.stm_steps.specs.declared.value.Value.TheVariants.{Text as OfTextValue};
ghost use Rattle.stm_steps.specs.Session.{Session as Progress};
ghost use Rattle.stm_sites.specs.Sites.{expression_site, here, inside};
ghost use Rattle.stm_sites.specs.declared.site.Node.TheVariants.{OfNumber, OfText};
ghost use Rattle.stm_sites.specs.Returns.{Returns, StopsAt, StopsBy, Computes, CopiesValue};

use crate::halt::{Halt, fault_on_one, on_one, on_two, stop_on_one, within};
use crate::site::Node;
use std::alloc::Global;
use stm_program::{Expr, ExprNode, Operator};
use stm_steps::{Lookup, Session, Stop, Text, Value, combine, join, number_of, spell, wanted_key};

/// The stop of a node that wants a key, whose part gave this value.
fn wants(alloc: Global, key: &Text, value: &Value) -> Result<Value, Halt>
    ensures { StopsBy OfText (value.now ∷ []) (Wants key.now) result }
{
    let key = key.clone()?;
    stop_on_one(alloc, Node::OfText, Stop::Wants(key), value)
}

/// What was found under a key, or the stop of the node that wants it, whose part gave this value.
fn found_or_halt(
    alloc: Global,
    found: Option<Value>,
    key: &Text,
    value: &Value,
) -> Result<Value, Halt>
    ensures reported { (s : Progress) → Returns result s (found_or_wanted key.now found s) }
    ensures site { StopsAt result (here OfText (value.now ∷ [])) }
{
    match found {
        Some(found) => Ok(found),
        None => wants(alloc, key, value),
    }
}

/// What a `get` of a value gives, which has to be a key.
fn got<L: Lookup>(
    alloc: Global,
    lookup: &L,
    session: &mut Session,
    key: &Value,
) -> Result<Value, Halt>
    ensures reported { Returns result session.new (and_then (given (key_in key.now) session.old) (get_key (L.answers lookup.now))) }
    ensures site { StopsAt result (here OfText (key.now ∷ [])) }
{
    match wanted_key(key) {
        Ok(name) => {
            let found = session.get(alloc, lookup, name)?;
            found_or_halt(alloc, found, name, key)
        }
        Err(fault) => fault_on_one(alloc, Node::OfText, fault, key),
    }
}

/// What a `rev` of a value gives, which has to be a key.
fn revision_of<L: Lookup>(
    alloc: Global,
    lookup: &L,
    session: &mut Session,
    key: &Value,
) -> Result<Value, Halt>
    ensures reported { Returns result session.new (and_then (given (key_in key.now) session.old) (rev_key (L.answers lookup.now))) }
    ensures site { StopsAt result (here OfText (key.now ∷ [])) }
{
    match wanted_key(key) {
        Ok(name) => {
            let found = session.rev(lookup, name)?;
            found_or_halt(alloc, found, name, key)
        }
        Err(fault) => fault_on_one(alloc, Node::OfText, fault, key),
    }
}

/// A copy of a value.
fn copy_of(value: &Value) -> Result<Value, Halt>
    ensures { CopiesValue value.now result }
{
    let value = value.clone()?;
    Ok(value)
}

/// A text, as a value.
fn value_of_text(text: &Text) -> Result<Value, Halt>
    ensures { CopiesValue (OfTextValue text.now) result }
{
    let text = text.clone()?;
    Ok(Value::Text(text))
}

/// The text of a number.
fn spelled(alloc: Global, number: &Value) -> Result<Value, Halt>
    ensures { Computes OfNumber (number.now ∷ []) (text_of number.now) result }
{
    let computed = spell(alloc, number)?;
    on_one(alloc, Node::OfNumber, computed, number)
}

/// Two texts, one after the other.
fn in_a_row(alloc: Global, left: &Value, right: &Value) -> Result<Value, Halt>
    ensures { Computes OfText (left.now ∷ right.now ∷ []) (concatenated left.now right.now) result }
{
    let computed = join(alloc, left, right)?;
    on_two(alloc, Node::OfText, computed, left, right)
}

/// The value of an expression that is the part at an index of a node.
#[cycle(values)]
pub(crate) fn part_value<L: Lookup>(
    alloc: Global,
    lookup: &L,
    session: &mut Session,
    index: usize,
    expression: &Expr,
) -> Result<Value, Halt>
    ensures reported { Returns result session.new (evaluate (L.answers lookup.now) expression.now session.old) }
    ensures site { StopsAt result (inside index (expression_site (L.answers lookup.now) expression.now session.old)) }
{
    let value = value_of(alloc, lookup, session, expression);
    let value = within(index, value)?;
    Ok(value)
}

/// What an operator computes of the values of two expressions.
#[cycle(values)]
#[tactic(auto, unfolding(stm_steps::specs::Meaning::evaluate, crate::specs::Sites::expression_site))]
fn combined<L: Lookup>(
    alloc: Global,
    lookup: &L,
    session: &mut Session,
    operator: Operator,
    left: &Expr,
    right: &Expr,
) -> Result<Value, Halt>
    ensures reported { Returns result session.new (evaluate (L.answers lookup.now) (Arithmetic operator left.now right.now) session.old) }
    ensures site { StopsAt result (expression_site (L.answers lookup.now) (Arithmetic operator left.now right.now) session.old) }
{
    let left = part_value(alloc, lookup, session, 1, left)?;
    let right = match part_value(alloc, lookup, session, 2, right) {
        Ok(right) => right,
        Err(halt) => {
            drop(left);
            return Err(halt);
        }
    };
    let computed = combine(operator, &left, &right);
    let value = on_two(alloc, Node::Operation(operator), computed, &left, &right);
    drop(left);
    drop(right);
    value
}

/// The values of two expressions, one text after the other.
#[cycle(values)]
#[tactic(auto, unfolding(stm_steps::specs::Meaning::evaluate, crate::specs::Sites::expression_site))]
fn joined<L: Lookup>(
    alloc: Global,
    lookup: &L,
    session: &mut Session,
    left: &Expr,
    right: &Expr,
) -> Result<Value, Halt>
    ensures reported { Returns result session.new (evaluate (L.answers lookup.now) (Cat left.now right.now) session.old) }
    ensures site { StopsAt result (expression_site (L.answers lookup.now) (Cat left.now right.now) session.old) }
{
    let left = part_value(alloc, lookup, session, 1, left)?;
    let right = match part_value(alloc, lookup, session, 2, right) {
        Ok(right) => right,
        Err(halt) => {
            drop(left);
            return Err(halt);
        }
    };
    let value = in_a_row(alloc, &left, &right);
    drop(left);
    drop(right);
    value
}

/// What a key has that an expression gives.
#[cycle(values)]
#[tactic(auto, unfolding(stm_steps::specs::Meaning::evaluate, crate::specs::Sites::expression_site))]
fn value_at<L: Lookup>(
    alloc: Global,
    lookup: &L,
    session: &mut Session,
    key: &Expr,
) -> Result<Value, Halt>
    ensures reported { Returns result session.new (evaluate (L.answers lookup.now) (Get key.now) session.old) }
    ensures site { StopsAt result (expression_site (L.answers lookup.now) (Get key.now) session.old) }
{
    let key = part_value(alloc, lookup, session, 1, key)?;
    let value = got(alloc, lookup, session, &key);
    drop(key);
    value
}

/// The modification revision of a key that an expression gives.
#[cycle(values)]
#[tactic(auto, unfolding(stm_steps::specs::Meaning::evaluate, crate::specs::Sites::expression_site))]
fn revision_at<L: Lookup>(
    alloc: Global,
    lookup: &L,
    session: &mut Session,
    key: &Expr,
) -> Result<Value, Halt>
    ensures reported { Returns result session.new (evaluate (L.answers lookup.now) (Rev key.now) session.old) }
    ensures site { StopsAt result (expression_site (L.answers lookup.now) (Rev key.now) session.old) }
{
    let key = part_value(alloc, lookup, session, 1, key)?;
    let value = revision_of(alloc, lookup, session, &key);
    drop(key);
    value
}

/// The text of a number that an expression gives.
#[cycle(values)]
#[tactic(auto, unfolding(stm_steps::specs::Meaning::evaluate, crate::specs::Sites::expression_site))]
fn text_at<L: Lookup>(
    alloc: Global,
    lookup: &L,
    session: &mut Session,
    number: &Expr,
) -> Result<Value, Halt>
    ensures reported { Returns result session.new (evaluate (L.answers lookup.now) (TextOf number.now) session.old) }
    ensures site { StopsAt result (expression_site (L.answers lookup.now) (TextOf number.now) session.old) }
{
    let number = part_value(alloc, lookup, session, 1, number)?;
    let value = spelled(alloc, &number);
    drop(number);
    value
}

/// The number of a text that an expression gives.
#[cycle(values)]
#[tactic(auto, unfolding(stm_steps::specs::Meaning::evaluate, crate::specs::Sites::expression_site))]
fn number_at<L: Lookup>(
    alloc: Global,
    lookup: &L,
    session: &mut Session,
    text: &Expr,
) -> Result<Value, Halt>
    ensures reported { Returns result session.new (evaluate (L.answers lookup.now) (NumOf text.now) session.old) }
    ensures site { StopsAt result (expression_site (L.answers lookup.now) (NumOf text.now) session.old) }
{
    let text = part_value(alloc, lookup, session, 1, text)?;
    let value = on_one(alloc, Node::OfText, number_of(&text), &text);
    drop(text);
    value
}

/// The value of an expression. Elements are evaluated from left to right, and kinds are checked when all elements of a node have values.
#[cycle(values)]
#[tactic(auto, unfolding(stm_steps::specs::Meaning::evaluate, crate::specs::Sites::expression_site))]
fn value_of<L: Lookup>(
    alloc: Global,
    lookup: &L,
    session: &mut Session,
    expression: &Expr,
) -> Result<Value, Halt>
    ensures reported { Returns result session.new (evaluate (L.answers lookup.now) expression.now session.old) }
    ensures site { StopsAt result (expression_site (L.answers lookup.now) expression.now session.old) }
{
    match &expression.node {
        ExprNode::Text(text) => value_of_text(text),
        ExprNode::Number(number) => Ok(Value::Number(*number)),
        ExprNode::Variable(variable) => copy_of(session.variable(*variable)),
        ExprNode::Get(key) => value_at(alloc, lookup, session, key),
        ExprNode::Rev(key) => revision_at(alloc, lookup, session, key),
        ExprNode::Arithmetic(operator, left, right) => {
            combined(alloc, lookup, session, *operator, left, right)
        }
        ExprNode::Cat(left, right) => joined(alloc, lookup, session, left, right),
        ExprNode::TextOf(number) => text_at(alloc, lookup, session, number),
        ExprNode::NumOf(text) => number_at(alloc, lookup, session, text),
    }
}
