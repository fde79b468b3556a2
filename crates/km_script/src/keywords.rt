//! The first words of the commands.

ghost use Rattle.std.specs.Prelude.{◌≡◌, ◌∷◌, ◌++◌, bytes_eq, codes, if◌then◌else◌, Some, None};
ghost use Rattle.km_script.specs.Keywords.{all_keywords, keyword_in, text_of};

use km_base::compare::is;

/// The first word of a command.
#[derive(Clone, Copy, Debug, PartialEq)]
pub enum Keyword {
    Memory,
    Section,
    Task,
    Exit,
    Set,
    Load,
    Store,
    Erase,
    Print,
    Kmalloc,
    Kzalloc,
    Kfree,
    Pages,
    FreePages,
    Vmalloc,
    Vfree,
    BootMem,
    FreePart,
    NotLeak,
    Ignore,
    NoScan,
    ScanArea,
    TransientLeak,
    Write,
    Read,
    Tick,
    Begin,
    Step,
    Finish,
}

/// A keyword, if it is so.
fn given(is_given: bool, keyword: Keyword) -> Option<Keyword>
    ensures { result ≡ (if is_given then Some keyword else None) }
{
    if is_given { Some(keyword) } else { None }
}

/// A keyword that begins with `b`.
fn with_b(rest: &[u8]) -> Option<Keyword>
    ensures { result ≡ keyword_in all_keywords (codes "b" ++ rest.now) }
{
    if is(rest, b"egin") {
        Some(Keyword::Begin)
    } else if is(rest, b"ootmem") {
        Some(Keyword::BootMem)
    } else {
        None
    }
}

/// A keyword that begins with `e`.
fn with_e(rest: &[u8]) -> Option<Keyword>
    ensures { result ≡ keyword_in all_keywords (codes "e" ++ rest.now) }
{
    if is(rest, b"xit") {
        Some(Keyword::Exit)
    } else if is(rest, b"rase") {
        Some(Keyword::Erase)
    } else {
        None
    }
}

/// A keyword that begins with `f`.
fn with_f(rest: &[u8]) -> Option<Keyword>
    ensures { result ≡ keyword_in all_keywords (codes "f" ++ rest.now) }
{
    match rest {
        [b'i', rest @ ..] => given(is(rest, b"nish"), Keyword::Finish),
        [b'r', b'e', b'e', b'_', rest @ ..] => given(is(rest, b"part"), Keyword::FreePart),
        [b'r', b'e', b'e', b'p', rest @ ..] => given(is(rest, b"ages"), Keyword::FreePages),
        _ => None,
    }
}

/// A keyword that begins with `k`.
fn with_k(rest: &[u8]) -> Option<Keyword>
    ensures { result ≡ keyword_in all_keywords (codes "k" ++ rest.now) }
{
    match rest {
        [b'f', rest @ ..] => given(is(rest, b"ree"), Keyword::Kfree),
        [b'm', rest @ ..] => given(is(rest, b"alloc"), Keyword::Kmalloc),
        [b'z', rest @ ..] => given(is(rest, b"alloc"), Keyword::Kzalloc),
        _ => None,
    }
}

/// A keyword that begins with `n`.
fn with_n(rest: &[u8]) -> Option<Keyword>
    ensures { result ≡ keyword_in all_keywords (codes "n" ++ rest.now) }
{
    match rest {
        [b'o', b'_', rest @ ..] => given(is(rest, b"scan"), Keyword::NoScan),
        [b'o', b't', rest @ ..] => given(is(rest, b"_leak"), Keyword::NotLeak),
        _ => None,
    }
}

/// A keyword that begins with `p`.
fn with_p(rest: &[u8]) -> Option<Keyword>
    ensures { result ≡ keyword_in all_keywords (codes "p" ++ rest.now) }
{
    match rest {
        [b'a', rest @ ..] => given(is(rest, b"ges"), Keyword::Pages),
        [b'r', rest @ ..] => given(is(rest, b"int"), Keyword::Print),
        _ => None,
    }
}

/// A keyword that begins with `s`.
fn with_s(rest: &[u8]) -> Option<Keyword>
    ensures { result ≡ keyword_in all_keywords (codes "s" ++ rest.now) }
{
    if is(rest, b"et") {
        Some(Keyword::Set)
    } else if is(rest, b"tep") {
        Some(Keyword::Step)
    } else if is(rest, b"tore") {
        Some(Keyword::Store)
    } else if is(rest, b"ection") {
        Some(Keyword::Section)
    } else if is(rest, b"can_area") {
        Some(Keyword::ScanArea)
    } else {
        None
    }
}

/// A keyword that begins with `t`.
fn with_t(rest: &[u8]) -> Option<Keyword>
    ensures { result ≡ keyword_in all_keywords (codes "t" ++ rest.now) }
{
    match rest {
        [b'a', rest @ ..] => given(is(rest, b"sk"), Keyword::Task),
        [b'i', rest @ ..] => given(is(rest, b"ck"), Keyword::Tick),
        [b'r', rest @ ..] => given(is(rest, b"ansient_leak"), Keyword::TransientLeak),
        _ => None,
    }
}

/// A keyword that begins with `v`.
fn with_v(rest: &[u8]) -> Option<Keyword>
    ensures { result ≡ keyword_in all_keywords (codes "v" ++ rest.now) }
{
    match rest {
        [b'f', rest @ ..] => given(is(rest, b"ree"), Keyword::Vfree),
        [b'm', rest @ ..] => given(is(rest, b"alloc"), Keyword::Vmalloc),
        _ => None,
    }
}

impl Keyword {
    /// The keyword that a word is, by its first byte and the bytes behind it. Each byte is looked at once:
    /// the first ones tell which keyword the word can be, and those behind them are compared with it.
    pub fn of(first: u8, rest: &[u8]) -> Option<Keyword>
        ensures { result ≡ keyword_in all_keywords (first ∷ rest.now) }
    {
        match first {
            b'b' => with_b(rest),
            b'e' => with_e(rest),
            b'f' => with_f(rest),
            b'i' => given(is(rest, b"gnore"), Keyword::Ignore),
            b'k' => with_k(rest),
            b'l' => given(is(rest, b"oad"), Keyword::Load),
            b'm' => given(is(rest, b"emory"), Keyword::Memory),
            b'n' => with_n(rest),
            b'p' => with_p(rest),
            b'r' => given(is(rest, b"ead"), Keyword::Read),
            b's' => with_s(rest),
            b't' => with_t(rest),
            b'v' => with_v(rest),
            b'w' => given(is(rest, b"rite"), Keyword::Write),
            _ => None,
        }
    }

    /// Whether this is `memory`, which begins a script and nothing else.
    pub fn is_memory(self) -> bool
        ensures { result ≡ bytes_eq (text_of self) (codes "memory") }
    {
        match self {
            Keyword::Memory => true,
            _ => false,
        }
    }
}
