//! Numbers, and sums and differences of numbers and labels.

ghost use Rattle.std.specs.Prelude.{◌≡◌};
ghost use Rattle.assembler_text.specs.naming.Expressions.{sum_or_difference, expression, hexadecimal, more_terms, named_term, quoted_byte, sign, term, word_value};
ghost use Rattle.assembler_text.specs.naming.Labels.{address_of};
ghost use Rattle.assembler_text.specs.naming.Words.{read_of};

use crate::naming::labels::{Labels, begins_with_digit, is_label};
use crate::naming::numerals::numeral;
use crate::naming::words::{Read, after_word, word};

/// A word, or `None` where a label in the expression is unknown.
pub type Value = Option<u32>;

/// Terms joined by `+` and `-`, without spaces, modulo 2^32: `loop+4`, `'A'-&41+n`.
pub fn expression<'t>(labels: &Labels, text: &'t [u8]) -> Read<'t, Value>
    ensures { read_of result ≡ expression (address_of labels.now) text.now }
{
    let (first, rest) = term(labels, text)?;
    more_terms(labels, rest.len(), first, rest)
}

// The terms after a sum, at most `count`.
fn more_terms<'t>(labels: &Labels, count: usize, first: Value, text: &'t [u8]) -> Read<'t, Value>
    ensures { read_of result ≡ more_terms count (address_of labels.now) first text.now }
{
    let mut sum = first;
    let mut rest = text;
    for _terms in 0..count {
        let Some((is_minus, after)) = sign(rest) else {
            return Some((sum, rest));
        };
        let (value, next) = term(labels, after)?;
        sum = combined(is_minus, sum, value);
        rest = next;
    }
    Some((sum, rest))
}

// `'c'`, `&FF`, `255` or a label.
fn term<'t>(labels: &Labels, text: &'t [u8]) -> Read<'t, Value>
    ensures { read_of result ≡ term (address_of labels.now) text.now }
{
    match text {
        [] => None,
        [b'\'', rest @ ..] => quoted(rest),
        [b'&', rest @ ..] => hexadecimal(rest),
        _ => named_term(labels, text),
    }
}

// What follows the first quote of `'c'`.
fn quoted(text: &[u8]) -> Read<'_, Value>
    ensures { read_of result ≡ quoted_byte text.now }
{
    match text {
        [c @ b' '..=b'~', b'\'', rest @ ..] => Some((Some(u32::from(*c)), rest)),
        _ => None,
    }
}

// What follows `&`.
fn hexadecimal(text: &[u8]) -> Read<'_, Value>
    ensures { read_of result ≡ hexadecimal text.now }
{
    let number = numeral(16, word(text))?;
    Some((Some(number), after_word(text)))
}

fn named_term<'t>(labels: &Labels, text: &'t [u8]) -> Read<'t, Value>
    ensures { read_of result ≡ named_term (address_of labels.now) text.now }
{
    let value = word_value(labels, word(text))?;
    Some((value, after_word(text)))
}

// A decimal number, or a label.
fn word_value(labels: &Labels, name: &[u8]) -> Option<Value>
    ensures { result ≡ word_value (address_of labels.now) name.now }
{
    if begins_with_digit(name) {
        let number = numeral(10, name)?;
        Some(Some(number))
    } else if is_label(name) {
        Some(labels.find(name))
    } else {
        None
    }
}

/// A `-`, which is true, or a `+`, and what follows it.
pub fn sign(text: &[u8]) -> Read<'_, bool>
    ensures { read_of result ≡ sign text.now }
{
    match text {
        [b'-', rest @ ..] => Some((true, rest)),
        [b'+', rest @ ..] => Some((false, rest)),
        _ => None,
    }
}

// The sum, or after `-` the difference.
fn combined(is_minus: bool, first: Value, second: Value) -> Value
    ensures { result ≡ sum_or_difference is_minus first second }
{
    let a = first?;
    let b = second?;
    Some(if is_minus {
        a.wrapping_sub(b)
    } else {
        a.wrapping_add(b)
    })
}
