//! The first words of the acts.

ghost use Rattle.std.specs.Prelude.{◌≡◌, ◌∷◌, ◌++◌, codes, if◌then◌else◌, Some, None};
ghost use Rattle.km_journal_lines.specs.Keywords.{all_keywords, keyword_in};

use km_base::compare::is;

/// The first word of an act.
#[derive(Clone, Copy, Debug, PartialEq)]
pub enum Keyword {
    Section,
    Task,
    Exit,
    Reg,
    Load,
    Store,
    Kmalloc,
    Kfree,
    Pages,
    FreePages,
    VmTake,
    VmGive,
    BootMem,
    FreePart,
    NotLeak,
    Ignore,
    NoScan,
    ScanArea,
    TransientLeak,
    File,
    Read,
    Tick,
    Auto,
    Step,
    Halt,
}

/// A keyword, if it is so.
fn given(is_given: bool, keyword: Keyword) -> Option<Keyword>
    ensures { result ≡ (if is_given then Some keyword else None) }
{
    if is_given { Some(keyword) } else { None }
}

/// A keyword that begins with `f`.
fn with_f(rest: &[u8]) -> Option<Keyword>
    ensures { result ≡ keyword_in all_keywords (codes "f" ++ rest.now) }
{
    if is(rest, b"ile") {
        Some(Keyword::File)
    } else if is(rest, b"reepages") {
        Some(Keyword::FreePages)
    } else if is(rest, b"ree_part") {
        Some(Keyword::FreePart)
    } else {
        None
    }
}

/// A keyword that begins with `k`.
fn with_k(rest: &[u8]) -> Option<Keyword>
    ensures { result ≡ keyword_in all_keywords (codes "k" ++ rest.now) }
{
    if is(rest, b"malloc") {
        Some(Keyword::Kmalloc)
    } else if is(rest, b"free") {
        Some(Keyword::Kfree)
    } else {
        None
    }
}

/// A keyword that begins with `n`.
fn with_n(rest: &[u8]) -> Option<Keyword>
    ensures { result ≡ keyword_in all_keywords (codes "n" ++ rest.now) }
{
    if is(rest, b"ot_leak") {
        Some(Keyword::NotLeak)
    } else if is(rest, b"o_scan") {
        Some(Keyword::NoScan)
    } else {
        None
    }
}

/// A keyword that begins with `r`.
fn with_r(rest: &[u8]) -> Option<Keyword>
    ensures { result ≡ keyword_in all_keywords (codes "r" ++ rest.now) }
{
    if is(rest, b"eg") {
        Some(Keyword::Reg)
    } else if is(rest, b"ead") {
        Some(Keyword::Read)
    } else {
        None
    }
}

/// A keyword that begins with `s`. The step, of which a scan makes one a word, is tried first.
fn with_s(rest: &[u8]) -> Option<Keyword>
    ensures { result ≡ keyword_in all_keywords (codes "s" ++ rest.now) }
{
    if is(rest, b"tep") {
        Some(Keyword::Step)
    } else if is(rest, b"tore") {
        Some(Keyword::Store)
    } else if is(rest, b"ection") {
        Some(Keyword::Section)
    } else if is(rest, b"can_area") {
        Some(Keyword::ScanArea)
    } else {
        None
    }
}

/// A keyword that begins with `t`.
fn with_t(rest: &[u8]) -> Option<Keyword>
    ensures { result ≡ keyword_in all_keywords (codes "t" ++ rest.now) }
{
    if is(rest, b"ask") {
        Some(Keyword::Task)
    } else if is(rest, b"ick") {
        Some(Keyword::Tick)
    } else if is(rest, b"ransient_leak") {
        Some(Keyword::TransientLeak)
    } else {
        None
    }
}

/// A keyword that begins with `v`.
fn with_v(rest: &[u8]) -> Option<Keyword>
    ensures { result ≡ keyword_in all_keywords (codes "v" ++ rest.now) }
{
    if is(rest, b"mtake") {
        Some(Keyword::VmTake)
    } else if is(rest, b"mgive") {
        Some(Keyword::VmGive)
    } else {
        None
    }
}

impl Keyword {
    /// The keyword that a word is, by its first byte and the bytes after it.
    fn after(first: u8, rest: &[u8]) -> Option<Keyword>
        ensures { result ≡ keyword_in all_keywords (first ∷ rest.now) }
    {
        match first {
            b's' => with_s(rest),
            b'a' => given(is(rest, b"uto"), Keyword::Auto),
            b'b' => given(is(rest, b"ootmem"), Keyword::BootMem),
            b'e' => given(is(rest, b"xit"), Keyword::Exit),
            b'f' => with_f(rest),
            b'h' => given(is(rest, b"alt"), Keyword::Halt),
            b'i' => given(is(rest, b"gnore"), Keyword::Ignore),
            b'k' => with_k(rest),
            b'l' => given(is(rest, b"oad"), Keyword::Load),
            b'n' => with_n(rest),
            b'p' => given(is(rest, b"ages"), Keyword::Pages),
            b'r' => with_r(rest),
            b't' => with_t(rest),
            b'v' => with_v(rest),
            _ => None,
        }
    }
    /// The keyword that a word is.
    pub fn of(word: &[u8]) -> Option<Keyword>
        ensures { result ≡ keyword_in all_keywords word.now }
    {
        match word {
            [first, rest @ ..] => Keyword::after(*first, rest),
            [] => None,
        }
    }
}
