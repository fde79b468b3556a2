//! Registers and operands.

ghost use Rattle.std.specs.Prelude.{◌≡◌, ◌==◌, ◌<◌, ℕ, true, false, ◌∷◌, Some, None, IfSome, MatchOption, length, option_map, position, take};
ghost use Rattle.km_base.specs.Names.{name_of};
ghost use Rattle.km_model.specs.Grammar.{base_of, operand as operand_of_word, reg_name, register_of as register_of_word, register_suffix, with_plus};
ghost use Rattle.km_model.specs.Pieces.{behind_first, up_to};
ghost use Rattle.km_script.specs.Bytes.{is_digit as is_digit_byte};
ghost use Rattle.km_script.specs.Marks.{if_below};
ghost use Rattle.km_script.specs.Roles.{base_in, suffix_role};
ghost use Rattle.km_script.specs.Words.{bytes_of_word};

use crate::bytes::is_digit;
use crate::numbers::{number, number_behind};
use crate::word::Word;
use km_base::compare::is;
use km_base::{Base, Name, Operand, Reg, RegName};

/// What stands before a place, and what stands behind it.
fn cut_at(place: Option<usize>, bytes: &[u8]) -> Option<(&[u8], &[u8])>
    requires { IfSome place (λ i. i < length bytes.now) }
    ensures front { IfSome result (λ parts. parts.0.now ≡ take (length parts.0.now) bytes.now) }
    ensures cut { (byte : ℕ) → place ≡ position (λ c. c == byte) bytes.now → MatchOption result (behind_first byte bytes.now ≡ None) (λ parts. (up_to byte bytes.now ≡ parts.0.now) × (behind_first byte bytes.now ≡ Some parts.1.now)) }
{
    let place = place?;
    Some((&bytes[..place], &bytes[place + 1..]))
}

/// A register's own name: `r0` to `r3`.
fn reg(word: &[u8]) -> Option<Reg>
    ensures { result ≡ register_suffix word.now }
{
    let [b'r', digit] = word else {
        return None;
    };
    match *digit {
        b'0' => Some(Reg::R0),
        b'1' => Some(Reg::R1),
        b'2' => Some(Reg::R2),
        b'3' => Some(Reg::R3),
        _ => None,
    }
}

/// The register of a task, by the first byte of its name and those behind it.
fn task_register(first: u8, task: &[u8], suffix: &[u8]) -> Option<RegName>
    ensures { result ≡ reg_name (name_of (first ∷ task.now)) (register_suffix suffix.now) }
{
    let task = Name::read_behind(first, task)?;
    let reg = reg(suffix)?;
    Some(RegName { task, reg })
}

/// A register: `TASK.r0` to `TASK.r3`.
pub fn register_of(word: Word) -> Option<RegName>
    ensures { result ≡ register_of_word (bytes_of_word word.entry) }
{
    let (task, suffix) = cut_at(word.dot, word.rest)?;
    task_register(word.first, task, suffix)
}

/// What a name stands for in an operand.
#[derive(Clone, Copy)]
enum Role {
    Section,
    Stack,
    Reg(Reg),
}

/// What a task's name stands for before `.` and this.
fn role_behind(suffix: &[u8]) -> Option<Role>
    ensures { result ≡ suffix_role suffix.now }
{
    if is(suffix, b"stack") {
        return Some(Role::Stack);
    }
    let reg = reg(suffix)?;
    Some(Role::Reg(reg))
}

/// A base with a name.
fn base_with(name: Name, role: Role) -> Base
    ensures { result ≡ base_in role name }
{
    match role {
        Role::Section => Base::Section(name),
        Role::Stack => Base::Stack(name),
        Role::Reg(reg) => Base::Reg { task: name, reg },
    }
}

/// An operand whose base is a number.
#[inline(never)]
fn number_operand(first: u8, rest: &[u8], plus: u64) -> Option<Operand>
    requires { is_digit_byte first ≡ true }
    ensures { result ≡ with_plus (base_of (first ∷ rest.now)) (Some plus) }
{
    let n = number_behind(first, rest)?;
    Some(Operand {
        base: Base::Number(n),
        plus,
    })
}

/// An operand whose base is what a name stands for.
#[inline(never)]
fn operand_with(first: u8, name: &[u8], role: Role, plus: u64) -> Option<Operand>
    ensures { result ≡ with_plus (option_map (base_in role) (name_of (first ∷ name.now))) (Some plus) }
{
    let name = Name::read_behind(first, name)?;
    Some(Operand {
        base: base_with(name, role),
        plus,
    })
}

/// An operand whose base has a name, in which the first `.` stands at a place.
#[inline(always)]
fn named_operand(first: u8, rest: &[u8], dot: Option<usize>, plus: u64) -> Option<Operand>
    requires named { is_digit_byte first ≡ false }
    requires dot { dot ≡ position (λ c. c == 46) rest.now }
    ensures { result ≡ with_plus (base_of (first ∷ rest.now)) (Some plus) }
{
    match cut_at(dot, rest) {
        Some((task, suffix)) => {
            let role = role_behind(suffix)?;
            operand_with(first, task, role, plus)
        }
        None => operand_with(first, rest, Role::Section, plus),
    }
}

/// An operand of a base, in which the first `.` stands at a place, and what is added to it.
///
/// The two kinds stay functions of their own, since an operand that is put together from both is copied in small pieces.
#[inline(always)]
fn operand_of(first: u8, rest: &[u8], dot: Option<usize>, plus: u64) -> Option<Operand>
    requires { dot ≡ position (λ c. c == 46) rest.now }
    ensures { result ≡ with_plus (base_of (first ∷ rest.now)) (Some plus) }
{
    if is_digit(first) {
        number_operand(first, rest, plus)
    } else {
        named_operand(first, rest, dot, plus)
    }
}

/// A place, if it is below an end.
fn below(place: Option<usize>, end: usize) -> Option<usize>
    ensures { result ≡ if_below end place }
{
    place.filter(|place| *place < end)
}

/// An operand: a base, or a base, `+` and a number. A base is a number, a register, `TASK.stack`, or a section's name.
pub fn operand(word: Word) -> Option<Operand>
    ensures { result ≡ operand_of_word (bytes_of_word word.entry) }
{
    match cut_at(word.plus, word.rest) {
        Some((front, digits)) => {
            let plus = number(digits)?;
            operand_of(word.first, front, below(word.dot, front.len()), plus)
        }
        None => operand_of(word.first, word.rest, word.dot, 0),
    }
}
