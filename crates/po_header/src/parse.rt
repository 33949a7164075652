//! The parser of plural expressions: takes operands and operators one after another, and keeps a stack of what waits
//! for its operand.
ghost use Rattle.std.specs.Prelude.{◌≡◌, ◌≢◌, ℕ, ◌<◌, ◌⊎◌, List, [], ◌∷◌, ◌++◌};
ghost use Rattle.std.specs.Prelude.{Option, None, Some, MatchOption, IfOk, IfErr, IsErrOf, ◌↔◌, length};
ghost use Rattle.po_header.specs.Grammar.{Tree, Derives, level};
ghost use Rattle.po_header.specs.Expression.{expression, SpellsTree, IsReadAs, IsMalformed, IsTooLong};
ghost use Rattle.po_header.specs.Nodes.{node_tree};
ghost use Rattle.po_header.specs.Expr.{tree_of};
ghost use Rattle.po_header.specs.Frames.{frame_waits, stack_of, state_of, IsFault};
ghost use Rattle.po_header.specs.Stack.{joined_operand, joins_on, join_tree, is_bang_waits, negated_operand, begin};
ghost use Rattle.po_header.specs.Stack.{close, colon, go_on, step, finish};
ghost use Rattle.po_header.specs.declared.ExprFault.TheVariants.{TooLong, Malformed, Memory};
ghost use Rattle.po_header.specs.declared.token.Token.{Token};

use crate::expr::PluralExpr;
use crate::token::{Operator, Token, skip_blanks, token_at};
use crate::tree::Node;
use crate::{EXPRESSION_LIMIT, ExprFault};
use memchr::memchr2;
use std::alloc::{AllocError, Global};

/// What waits on the stack for its operand.
#[derive(Drop)]
pub(crate) enum Frame {
    Bracket,
    Bang,
    Left(Operator, Node),
    Condition(Node),
    Branch(Node, Node),
}

impl Operator {
    /// The operator's level of precedence: a higher level binds tighter.
    fn level(self) -> u8
        ensures { result ≡ level self }
    {
        match self {
            Operator::Or => 2,
            Operator::And => 3,
            Operator::Equal | Operator::NotEqual => 4,
            Operator::Less | Operator::Greater | Operator::AtMost | Operator::AtLeast => 5,
            Operator::Add | Operator::Subtract => 6,
            Operator::Multiply | Operator::Divide | Operator::Remainder => 7,
        }
    }
}

impl Frame {
    /// Whether it takes an operand that is followed by an operator of this level.
    fn joins(&self, level: u8) -> bool
        ensures { result ≡ joins_on level (frame_waits self.now) }
    {
        match self {
            Frame::Left(operator, _) => level <= operator.level(),
            Frame::Branch(_, _) => level <= 1,
            _ => false,
        }
    }

    fn is_bang(&self) -> bool
        ensures { result ≡ is_bang_waits (frame_waits self.now) }
    {
        match self {
            Frame::Bang => true,
            _ => false,
        }
    }

    /// Completes what waited, with its operand.
    fn join(self, alloc: Global, operand: Node) -> Result<Node, AllocError>
        ensures { IfOk result (λ node. node_tree node ≡ join_tree (frame_waits self) (node_tree operand)) }
    {
        match self {
            Frame::Left(operator, left) => Node::binary(alloc, operator, left, operand),
            Frame::Branch(condition, chosen) => Node::choose(alloc, condition, chosen, operand),
            _ => Ok(operand),
        }
    }
}

/// Completes all that waits at this level or a tighter one, with the operand.
fn join_above(
    alloc: Global,
    waiting: &mut Vec<Frame>,
    operand: Node,
    level: u8,
) -> Result<Node, AllocError>
    ensures { IfOk result (λ node.
        joined_operand level (stack_of waiting.old.items) (node_tree operand)
        ≡ (stack_of waiting.new.items, node_tree node)) }
{
    let mut operand = operand;
    'frames: while let Some(frame) = waiting.pop() {
        if !frame.joins(level) {
            waiting.push(frame)?;
            return Ok(operand);
        }
        operand = frame.join(alloc, operand)?;
    }
    Ok(operand)
}

/// Negates the operand once for each `!` before it.
fn negate(alloc: Global, waiting: &mut Vec<Frame>, operand: Node) -> Result<Node, AllocError>
    ensures { IfOk result (λ node.
        negated_operand (stack_of waiting.old.items) (node_tree operand)
        ≡ (stack_of waiting.new.items, node_tree node)) }
{
    let mut operand = operand;
    'frames: while let Some(frame) = waiting.last() {
        if !frame.is_bang() {
            return Ok(operand);
        }
        drop(waiting.pop());
        operand = Node::not(alloc, operand)?;
    }
    Ok(operand)
}

/// Takes a token where an operand is expected; returns the operand, if the token completes one.
fn begin_operand(
    alloc: Global,
    waiting: &mut Vec<Frame>,
    token: Token,
) -> Result<Option<Node>, ExprFault>
    ensures ok { IfOk result (λ operand.
        begin (stack_of waiting.old.items) token ≡ Some (state_of waiting.new.items operand)) }
    ensures err { IfErr result (λ fault. IsFault fault (begin (stack_of waiting.old.items) token ≡ None)) }
{
    match token {
        Token::Count => {
            let operand = negate(alloc, waiting, Node::Count)?;
            Ok(Some(operand))
        }
        Token::Number(value) => {
            let operand = negate(alloc, waiting, Node::Number(value))?;
            Ok(Some(operand))
        }
        Token::Open => {
            waiting.push(Frame::Bracket)?;
            Ok(None)
        }
        Token::Bang => {
            waiting.push(Frame::Bang)?;
            Ok(None)
        }
        _ => Err(ExprFault::Malformed),
    }
}

/// Takes a closing bracket after an operand.
fn close_bracket(
    alloc: Global,
    waiting: &mut Vec<Frame>,
    inner: Node,
) -> Result<Option<Node>, ExprFault>
    ensures ok { IfOk result (λ operand.
        close (stack_of waiting.old.items, node_tree inner) ≡ Some (state_of waiting.new.items operand)) }
    ensures err { IfErr result (λ fault. IsFault fault (close (stack_of waiting.old.items, node_tree inner) ≡ None)) }
{
    let Some(frame) = waiting.last() else {
        return Err(ExprFault::Malformed)
    };
    match frame {
        Frame::Bracket => {
            drop(waiting.pop());
            let operand = negate(alloc, waiting, inner)?;
            Ok(Some(operand))
        }
        _ => Err(ExprFault::Malformed),
    }
}

/// Takes the colon of a choice after an operand.
fn begin_other(waiting: &mut Vec<Frame>, chosen: Node) -> Result<Option<Node>, ExprFault>
    ensures ok { IfOk result (λ operand.
        colon (stack_of waiting.old.items, node_tree chosen) ≡ Some (state_of waiting.new.items operand)) }
    ensures err { IfErr result (λ fault. IsFault fault (colon (stack_of waiting.old.items, node_tree chosen) ≡ None)) }
{
    let Some(frame) = waiting.pop() else {
        return Err(ExprFault::Malformed)
    };
    match frame {
        Frame::Condition(condition) => {
            waiting.push(Frame::Branch(condition, chosen))?;
            Ok(None)
        }
        _ => Err(ExprFault::Malformed),
    }
}

/// Takes a token after an operand.
fn go_on_from(
    alloc: Global,
    waiting: &mut Vec<Frame>,
    operand: Node,
    token: Token,
) -> Result<Option<Node>, ExprFault>
    ensures ok { IfOk result (λ next.
        go_on (stack_of waiting.old.items) (node_tree operand) token ≡ Some (state_of waiting.new.items next)) }
    ensures err { IfErr result (λ fault.
        IsFault fault (go_on (stack_of waiting.old.items) (node_tree operand) token ≡ None)) }
{
    match token {
        Token::Sign(operator) => {
            let left = join_above(alloc, waiting, operand, operator.level())?;
            waiting.push(Frame::Left(operator, left))?;
            Ok(None)
        }
        Token::Question => {
            let condition = join_above(alloc, waiting, operand, 2)?;
            waiting.push(Frame::Condition(condition))?;
            Ok(None)
        }
        Token::Colon => {
            let chosen = join_above(alloc, waiting, operand, 1)?;
            begin_other(waiting, chosen)
        }
        Token::Close => {
            let inner = join_above(alloc, waiting, operand, 1)?;
            close_bracket(alloc, waiting, inner)
        }
        _ => Err(ExprFault::Malformed),
    }
}

/// Takes the next token.
fn take_token(
    alloc: Global,
    waiting: &mut Vec<Frame>,
    operand: Option<Node>,
    token: Token,
) -> Result<Option<Node>, ExprFault>
    ensures ok { IfOk result (λ next.
        step (Some (state_of waiting.old.items operand)) token ≡ Some (state_of waiting.new.items next)) }
    ensures err { IfErr result (λ fault.
        IsFault fault (step (Some (state_of waiting.old.items operand)) token ≡ None)) }
{
    match operand {
        None => begin_operand(alloc, waiting, token),
        Some(operand) => go_on_from(alloc, waiting, operand, token),
    }
}

/// The whole expression, once all its tokens have been taken.
fn finish_node(
    alloc: Global,
    waiting: &mut Vec<Frame>,
    operand: Option<Node>,
) -> Result<Node, ExprFault>
    ensures ok { IfOk result (λ node. finish (Some (state_of waiting.old.items operand)) ≡ Some (node_tree node)) }
    ensures err { IfErr result (λ fault. IsFault fault (finish (Some (state_of waiting.old.items operand)) ≡ None)) }
{
    let Some(operand) = operand else {
        return Err(ExprFault::Malformed)
    };
    let node = join_above(alloc, waiting, operand, 1)?;
    if waiting.is_empty() {
        Ok(node)
    } else {
        Err(ExprFault::Malformed)
    }
}

/// Parses a whole text as an expression.
fn parse_node(alloc: Global, text: &[u8]) -> Result<Node, ExprFault>
    ensures ok { IfOk result (λ node. SpellsTree text.now (node_tree node)) }
    ensures err { IfErr result (λ fault. IsFault fault ((tree : Tree) → ¬ SpellsTree text.now tree)) }
{
    let mut waiting = Vec::new(alloc);
    let mut operand = None;
    let mut rest = skip_blanks(text);
    'tokens: while !rest.is_empty() {
        let Some((token, later)) = token_at(rest) else {
            return Err(ExprFault::Malformed)
        };
        operand = take_token(alloc, &mut waiting, operand, token)?;
        rest = skip_blanks(later);
    }
    finish_node(alloc, &mut waiting, operand)
}

/// The bytes up to the first `;` or LF, or to the end.
fn expression_at(text: &[u8]) -> &[u8]
    ensures { result.now ≡ expression text.now }
{
    let end = memchr2(b';', b'\n', text).unwrap_or(text.len());
    let (front, _) = text.split_at(end);
    front
}

/// Reads the expression at the front of a text, which ends before the first `;` or LF, or at the end of the text
/// (GNU gettext manual, "Plural forms").
///
/// Fails with `TooLong` if the expression has more than `EXPRESSION_LIMIT` bytes, with `Malformed` if it isn't one, and
/// with `Memory` if memory runs out.
pub fn parse_expr(alloc: Global, text: &str) -> Result<PluralExpr, ExprFault>
    ensures ok { IfOk result (λ expr. IsReadAs text.now (tree_of expr)) }
    ensures too_long { IsErrOf result TooLong ↔ IsTooLong text.now }

    // An expression that is too long is never reported as malformed.
    ensures malformed { IsErrOf result Malformed → IsMalformed text.now }
{
    let front = expression_at(text.as_bytes());
    if front.len() > EXPRESSION_LIMIT {
        return Err(ExprFault::TooLong);
    }
    let node = parse_node(alloc, front)?;
    let expr = PluralExpr::new(alloc, node)?;
    Ok(expr)
}

/// A law, without code: tokens derive at most one tree.
pub fn one_tree()
    ensures { (tokens : List Token) (tree other : Tree) → Derives tokens tree → Derives tokens other → tree ≡ other }
{}
