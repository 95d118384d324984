//! Attributes of text.

ghost use Rattle.nv_hl.specs.Attributes.{combined, same_attr, same_colour, same_flag};
ghost use Rattle.std.specs.Prelude.{◌≡◌, ◌||◌};

/// How text looks: colours, where there are any, and flags (help: highlight-args).
#[derive(Clone, Copy, PartialEq, Eq, Debug)]
pub struct Attr {
    /// The foreground as 0xrrggbb.
    pub fg: Option<u32>,
    /// The background as 0xrrggbb.
    pub bg: Option<u32>,
    /// The colour of underlines as 0xrrggbb.
    pub sp: Option<u32>,
    /// The foreground as a terminal's colour.
    pub ctermfg: Option<u8>,
    /// The background as a terminal's colour.
    pub ctermbg: Option<u8>,
    pub reverse: bool,
    pub italic: bool,
    pub bold: bool,
    pub underline: bool,
    pub undercurl: bool,
    pub strikethrough: bool,
}

impl Attr {
    /// No colour and no flag.
    pub const EMPTY: Attr = Attr {
        fg: None,
        bg: None,
        sp: None,
        ctermfg: None,
        ctermbg: None,
        reverse: false,
        italic: false,
        bold: false,
        underline: false,
        undercurl: false,
        strikethrough: false,
    };
}

fn either(low: bool, high: bool) -> bool
    ensures { result ≡ (low || high) }
{
    high || low
}

/// `high` laid over `low`: a colour of `high` where it has one, else of `low`; a flag where either
/// has it.
pub fn combine(low: Attr, high: Attr) -> Attr
    ensures { result ≡ combined low high }
{
    Attr {
        fg: high.fg.or(low.fg),
        bg: high.bg.or(low.bg),
        sp: high.sp.or(low.sp),
        ctermfg: high.ctermfg.or(low.ctermfg),
        ctermbg: high.ctermbg.or(low.ctermbg),
        reverse: either(low.reverse, high.reverse),
        italic: either(low.italic, high.italic),
        bold: either(low.bold, high.bold),
        underline: either(low.underline, high.underline),
        undercurl: either(low.undercurl, high.undercurl),
        strikethrough: either(low.strikethrough, high.strikethrough),
    }
}

fn is_same_colour(a: Option<u32>, b: Option<u32>) -> bool
    ensures { result ≡ same_colour a b }
{
    match a {
        None => b.is_none(),
        Some(a) => match b {
            None => false,
            Some(b) => a == b,
        },
    }
}

fn is_same_cterm(a: Option<u8>, b: Option<u8>) -> bool
    ensures { result ≡ same_colour a b }
{
    match a {
        None => b.is_none(),
        Some(a) => match b {
            None => false,
            Some(b) => a == b,
        },
    }
}

fn is_same_flag(a: bool, b: bool) -> bool
    ensures { result ≡ same_flag a b }
{
    a == b
}

/// Whether two attributes have the same colours and flags.
#[tactic(auto, unfolding(crate::specs::Attributes::same_attr))]
pub fn is_same_attr(a: &Attr, b: &Attr) -> bool
    ensures { result ≡ same_attr a.now b.now }
{
    is_same_colour(a.fg, b.fg)
        && is_same_colour(a.bg, b.bg)
        && is_same_colour(a.sp, b.sp)
        && is_same_cterm(a.ctermfg, b.ctermfg)
        && is_same_cterm(a.ctermbg, b.ctermbg)
        && is_same_flag(a.reverse, b.reverse)
        && is_same_flag(a.italic, b.italic)
        && is_same_flag(a.bold, b.bold)
        && is_same_flag(a.underline, b.underline)
        && is_same_flag(a.undercurl, b.undercurl)
        && is_same_flag(a.strikethrough, b.strikethrough)
}
