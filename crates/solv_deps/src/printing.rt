//! The canonical text of a dependency.
ghost use Rattle.std.specs.Prelude.{◌≡◌, ◌<◌, ◌++◌, false, length, OnOk, OnErr};
ghost use Rattle.solv_base.specs.Dependency.{one, versioned};
ghost use Rattle.solv_base.specs.Pool.{text_tree};
ghost use Rattle.solv_deps.specs.Words.{unpaired_in};
ghost use Rattle.solv_deps.specs.Expressions.{connective_of};
ghost use Rattle.solv_deps.specs.Canonical.{text, is_rich, ends_unpaired, space_before_close, comparison_text, operand_text, spaced};
ghost use Rattle.solv_deps.specs.Grammar.{is_chain, otherwise};
ghost use Rattle.solv_deps.specs.Inner.Appending.{between};
ghost use Rattle.solv_deps.specs.Inner.Appending.{Keeps};

use crate::sign::Joint;
use solv_base::{Cmp, DepId, DepNode, Pool};
use std::alloc::AllocError;

/// How many `(` of a word have no partner in it.
fn count_unpaired(word: &[u8]) -> usize
    ensures { result ≡ unpaired_in 0 word.now }
{
    let mut unpaired: usize = 0;
    let mut i = 0;
    while i < word.len() {
        let c = word[i];
        if c == b'(' {
            unpaired += 1;
        } else if c == b')' && unpaired > 0 {
            unpaired -= 1;
        }
        i += 1;
    }
    unpaired
}

/// Whether a dependency has an operator.
fn has_operator(pool: &Pool, dep: DepId) -> bool
    requires { dep < length pool.now.nodes }
    ensures { result ≡ is_rich (text_tree pool.now dep) }
{
    match pool.dep(dep) {
        DepNode::Simple(_) | DepNode::Versioned(_, _, _) | DepNode::Namespace(_) => false,
        _ => true,
    }
}

/// Whether a dependency is a chain of this operator.
fn continues(pool: &Pool, joint: Joint, dep: DepId) -> bool
    requires { dep < length pool.now.nodes }
    ensures { result ≡ is_chain (connective_of joint) (text_tree pool.now dep) }
{
    match pool.dep(dep) {
        DepNode::And(_, _) => joint == Joint::Both,
        DepNode::Or(_, _) => joint == Joint::Either,
        DepNode::With(_, _) => joint == Joint::Jointly,
        _ => false,
    }
}

/// Whether a dependency without operators ends in a word which has a `(` without a partner.
fn ends_open(pool: &Pool, dep: DepId) -> bool
    requires { dep < length pool.now.nodes }
    ensures { result ≡ ends_unpaired (text_tree pool.now dep) }
{
    match pool.dep(dep) {
        DepNode::Simple(name) => count_unpaired(pool.name(name)) > 0,
        DepNode::Versioned(_, _, evr) => count_unpaired(pool.name(evr)) > 0,
        DepNode::Namespace(name) => count_unpaired(pool.name(name)) > 0,
        _ => false,
    }
}

/// Whether a space is due before a parenthesis that closes round a dependency.
fn wants_space(pool: &Pool, dep: DepId) -> bool
    requires { dep < length pool.now.nodes }
    ensures { result ≡ space_before_close (text_tree pool.now dep) }
{
    match pool.dep(dep) {
        DepNode::And(_, last) => ends_open(pool, last),
        DepNode::Or(_, last) => ends_open(pool, last),
        DepNode::With(_, last) => ends_open(pool, last),
        DepNode::Without(_, last) => ends_open(pool, last),
        DepNode::If(_, last) => ends_open(pool, last),
        DepNode::Unless(_, last) => ends_open(pool, last),
        DepNode::IfElse(_, _, last) => ends_open(pool, last),
        DepNode::UnlessElse(_, _, last) => ends_open(pool, last),
        _ => false,
    }
}

/// The sign of a comparison, as it is printed: `<`, `<=`, `<>` and so on. It takes no memory.
pub fn comparison_sign(cmp: Cmp) -> &'static [u8]
    ensures { result.now ≡ comparison_text cmp }
{
    if cmp.less {
        if cmp.greater {
            return if cmp.equal { b"<>=" } else { b"<>" };
        }
        return if cmp.equal { b"<=" } else { b"<" };
    }
    if cmp.greater {
        return if cmp.equal { b">=" } else { b">" };
    }
    if cmp.equal { b"=" } else { b"" }
}

/// Appends a word between spaces.
fn write_between(word: &[u8], into: &mut Vec<u8>) -> Result<(), AllocError>
    ensures ok { OnOk result (into.new.items ≡ into.old.items ++ between word.now) }
    ensures err { OnErr result (Keeps into.old.items into.new.items) }
{
    into.extend_from_slice(b" ")?;
    into.extend_from_slice(word)?;
    into.extend_from_slice(b" ")
}

/// Appends a name, a comparison and an EVR.
fn write_versioned(name: &[u8], cmp: Cmp, evr: &[u8], into: &mut Vec<u8>) -> Result<(), AllocError>
    ensures ok { OnOk result (into.new.items ≡ into.old.items ++ text (one (versioned name.now cmp evr.now))) }
    ensures err { OnErr result (Keeps into.old.items into.new.items) }
{
    into.extend_from_slice(name)?;
    write_between(comparison_sign(cmp), into)?;
    into.extend_from_slice(evr)
}

/// Appends a dependency as an operand: bare, or in parentheses where it has an operator.
#[cycle(write)]
fn write_operand(pool: &Pool, bare: bool, dep: DepId, into: &mut Vec<u8>) -> Result<(), AllocError>
    requires { dep < length pool.now.nodes }
    ensures ok { OnOk result (into.new.items ≡ into.old.items ++ operand_text bare (text_tree pool.now dep) (text (text_tree pool.now dep))) }
    ensures err { OnErr result (Keeps into.old.items into.new.items) }
{
    if bare || !has_operator(pool, dep) {
        return write_dep(pool, dep, into);
    }
    into.extend_from_slice(b"(")?;
    write_dep(pool, dep, into)?;
    if wants_space(pool, dep) {
        into.extend_from_slice(b" ")?;
    }
    into.extend_from_slice(b")")
}

/// Appends two operands with a word between them, the left one bare where that is asked for.
#[cycle(write)]
fn write_pair(
    pool: &Pool,
    bare: bool,
    left: DepId,
    word: &[u8],
    right: DepId,
    into: &mut Vec<u8>,
) -> Result<(), AllocError>
    requires left { left < length pool.now.nodes }
    requires right { right < length pool.now.nodes }
    ensures ok { OnOk result (into.new.items ≡ into.old.items ++ (operand_text bare (text_tree pool.now left) (text (text_tree pool.now left)) ++ (between word.now ++ operand_text false (text_tree pool.now right) (text (text_tree pool.now right))))) }
    ensures err { OnErr result (Keeps into.old.items into.new.items) }
{
    write_operand(pool, bare, left, into)?;
    write_between(word, into)?;
    write_operand(pool, false, right, into)
}

/// Appends an operand after `<ELSE>`.
#[cycle(write)]
fn write_else(pool: &Pool, dep: DepId, into: &mut Vec<u8>) -> Result<(), AllocError>
    requires { dep < length pool.now.nodes }
    ensures ok { OnOk result (into.new.items ≡ into.old.items ++ (spaced otherwise ++ operand_text false (text_tree pool.now dep) (text (text_tree pool.now dep)))) }
    ensures err { OnErr result (Keeps into.old.items into.new.items) }
{
    into.extend_from_slice(b" <ELSE> ")?;
    write_operand(pool, false, dep, into)
}

/// Appends a dependency's text.
#[cycle(write)]
fn write_dep(pool: &Pool, dep: DepId, into: &mut Vec<u8>) -> Result<(), AllocError>
    requires { dep < length pool.now.nodes }
    ensures ok { OnOk result (into.new.items ≡ into.old.items ++ text (text_tree pool.now dep)) }
    ensures err { OnErr result (Keeps into.old.items into.new.items) }
{
    match pool.dep(dep) {
        DepNode::Simple(name) => into.extend_from_slice(pool.name(name)),
        DepNode::Versioned(name, cmp, evr) => {
            write_versioned(pool.name(name), cmp, pool.name(evr), into)
        }
        DepNode::Namespace(name) => into.extend_from_slice(pool.name(name)),
        DepNode::And(a, b) => write_pair(pool, continues(pool, Joint::Both, a), a, b"&", b, into),
        DepNode::Or(a, b) => write_pair(pool, continues(pool, Joint::Either, a), a, b"|", b, into),
        DepNode::With(a, b) => write_pair(
            pool,
            continues(pool, Joint::Jointly, a),
            a,
            b"+",
            b,
            into,
        ),
        DepNode::Without(a, b) => write_pair(pool, false, a, b"-", b, into),
        DepNode::If(a, b) => write_pair(pool, false, a, b"<IF>", b, into),
        DepNode::Unless(a, b) => write_pair(pool, false, a, b"<UNLESS>", b, into),
        DepNode::IfElse(a, b, c) => {
            write_pair(pool, false, a, b"<IF>", b, into)?;
            write_else(pool, c, into)
        }
        DepNode::UnlessElse(a, b, c) => {
            write_pair(pool, false, a, b"<UNLESS>", b, into)?;
            write_else(pool, c, into)
        }
    }
}

/// Appends the canonical text of a dependency: words joined by one space, and an operand that is itself rich in
/// parentheses, except at the front of a chain that has the same operator. On a refusal the bytes are as before.
pub fn dep_text(pool: &Pool, dep: DepId, into: &mut Vec<u8>) -> Result<(), AllocError>
    requires { dep < length pool.now.nodes }
    ensures ok { OnOk result (into.new.items ≡ into.old.items ++ text (text_tree pool.now dep)) }
    ensures err { OnErr result (into.new.items ≡ into.old.items) }
{
    let before = into.len();
    if write_dep(pool, dep, into).is_err() {
        into.truncate(before);
        return Err(AllocError);
    }
    Ok(())
}
