//! The value of a term (ISO 7.9.2).
ghost use Rattle.std.specs.Prelude.{◌≡◌, ◌≤◌, IfOk, OnOk, IsOkUnless, drop, length, ◌⊎◌};
ghost use Rattle.pl_model.specs.Evaluables.{applied1, applied2, and_then, operation, evaluated};
ghost use Rattle.builtin_arithmetic.specs.NodeValues.{arity, node_value, with_value};

use crate::functors::{binary, unary};
use crate::operations::{apply1, apply2};
use crate::value_list::{Value, Values};
use pl_model::evaluables::{EvalFault, Op1, Op2};
use pl_term::{Flat, Memory, Node};
use std::alloc::Global;

/// The value of the term as an arithmetic expression, or the first fault on the way to it: at each subterm its functor
/// is looked at first, then its arguments are evaluated from the left, and then the operation is made (ISO 7.9.2). Or
/// `Memory`, because memory ran out. Nothing recurses on the depth of the term.
pub fn eval(alloc: Global, term: &Flat) -> Result<i64, EvalFault>
    ensures { (result ≡ Err EvalFault.Memory) ⊎ (result ≡ evaluated term.now) }
{
    let nodes = term.nodes();
    let mut values = Values::new(alloc);
    for i in (0..nodes.len()).rev() {
        put_value(alloc, &nodes[i], &mut values)?;
    }
    values.pop()
}

/// Takes the values of a node's arguments and puts the node's value in their place. The only error is out of memory.
fn put_value(alloc: Global, n: &Node, values: &mut Values) -> Result<(), Memory>
    requires { arity n.now ≤ length values.old }
    ensures { OnOk result (values.new ≡ with_value n.now values.old) }
{
    let value = take_value(alloc, n, values)?;
    values.push(value)
}

/// The value of a node from those of its arguments, which are taken. The only error is out of memory.
fn take_value(alloc: Global, n: &Node, values: &mut Values) -> Result<Value, Memory>
    requires { arity n.now ≤ length values.old }
    ensures value { IfOk result (λ v. v ≡ node_value n.now values.old) }
    ensures rest { OnOk result (values.new ≡ drop (arity n.now) values.old) }
{
    match n {
        Node::Var(_) => Ok(Err(EvalFault::Inst)),
        Node::Int(i) => Ok(Ok(*i)),
        Node::Atom(_) => not_evaluable(alloc, n),
        Node::Comp(name, 1) => {
            let x = values.pop();
            match unary(name) {
                Some(op) => Ok(of_one(op, x)),
                None => not_evaluable(alloc, n),
            }
        }
        Node::Comp(name, 2) => {
            let x = values.pop();
            let y = values.pop();
            match binary(name) {
                Some(op) => Ok(of_two(op, x, y)),
                None => not_evaluable(alloc, n),
            }
        }
        Node::Comp(_, count) => {
            values.discard(*count);
            not_evaluable(alloc, n)
        }
    }
}

/// The fault that the node is no evaluable. The only error is out of memory.
fn not_evaluable(alloc: Global, n: &Node) -> Result<Value, Memory>
    ensures { IfOk result (λ v. v ≡ Err (EvalFault.NotEvaluable n.now)) }
{
    let node = n.copy(alloc)?;
    Ok(Err(EvalFault::NotEvaluable { node }))
}

/// The value of an operation of one argument.
fn of_one(op: Op1, x: Value) -> Value
    ensures { result ≡ and_then x (λ v. operation (applied1 op v)) }
{
    apply1(op, x?).map_err(|fault| EvalFault::Operation { fault })
}

/// The value of an operation of two arguments.
fn of_two(op: Op2, x: Value, y: Value) -> Value
    ensures { result ≡ and_then x (λ v. and_then y (λ w. operation (applied2 op v w))) }
{
    apply2(op, x?, y?).map_err(|fault| EvalFault::Operation { fault })
}
