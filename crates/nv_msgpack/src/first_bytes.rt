//! What a first byte begins (MessagePack specification, "Overview").
ghost use Rattle.std.specs.Prelude.{◌≡◌, ◌<◌, ◌≤◌};
ghost use Rattle.nv_msgpack.specs.Spelling.{form};
ghost use Rattle.nv_msgpack.specs.FirstByte.{bytes_of, size_of, form_seen};

/// How many bytes a number has.
#[derive(Clone, Copy)]
pub enum Width {
    One,
    Two,
    Four,
    Eight,
}

impl Width {
    /// In bytes.
    pub fn bytes(self) -> u8
        ensures value { result ≡ bytes_of self }
        ensures few { result ≤ 8 }
    {
        match self {
            Width::One => 1,
            Width::Two => 2,
            Width::Four => 4,
            Width::Eight => 8,
        }
    }
}

/// Where a length stands: in the first byte, or in so many bytes behind it.
#[derive(Clone, Copy)]
pub enum Length {
    Fixed(u8),
    One,
    Two,
    Four,
}

/// What a first byte begins.
#[derive(Clone, Copy)]
pub enum FirstByte {
    Unused,
    Nil,
    Truth(bool),
    Small(i8),
    Text(Length),
    Bin(Length),
    Ext(Length),
    Unsigned(Width),
    Signed(Width),
    Float(Width),
    List(Length),
    Map(Length),
}

/// What the first byte `first` begins.
#[tactic(auto, unfolding(crate::specs::Spelling::form))]
pub fn first_byte(first: u8) -> FirstByte
    ensures { form_seen result ≡ form first }
{
    match first {
        0x00..=0x7f => FirstByte::Small(first as i8),
        0x80..=0x8f => FirstByte::Map(Length::Fixed(first - 0x80)),
        0x90..=0x9f => FirstByte::List(Length::Fixed(first - 0x90)),
        0xa0..=0xbf => FirstByte::Text(Length::Fixed(first - 0xa0)),
        0xc0..=0xdf => middle_byte(first),
        0xe0..=0xff => FirstByte::Small((i16::from(first) - 0x100) as i8),
    }
}

/// What a first byte from c0 to df begins.
#[tactic(auto, unfolding(crate::specs::Spelling::form, crate::specs::Spelling::middle))]
fn middle_byte(first: u8) -> FirstByte
    requires { 0xc0 ≤ first × first < 0xe0 }
    ensures { form_seen result ≡ form first }
{
    match first {
        0xc0 => FirstByte::Nil,
        0xc2 => FirstByte::Truth(false),
        0xc3 => FirstByte::Truth(true),
        0xc4 => FirstByte::Bin(Length::One),
        0xc5 => FirstByte::Bin(Length::Two),
        0xc6 => FirstByte::Bin(Length::Four),
        0xc7 => FirstByte::Ext(Length::One),
        0xc8 => FirstByte::Ext(Length::Two),
        0xc9 => FirstByte::Ext(Length::Four),
        0xca => FirstByte::Float(Width::Four),
        0xcb => FirstByte::Float(Width::Eight),
        0xcc => FirstByte::Unsigned(Width::One),
        0xcd => FirstByte::Unsigned(Width::Two),
        0xce => FirstByte::Unsigned(Width::Four),
        0xcf => FirstByte::Unsigned(Width::Eight),
        0xd0 => FirstByte::Signed(Width::One),
        0xd1 => FirstByte::Signed(Width::Two),
        0xd2 => FirstByte::Signed(Width::Four),
        0xd3 => FirstByte::Signed(Width::Eight),
        0xd4 => FirstByte::Ext(Length::Fixed(1)),
        0xd5 => FirstByte::Ext(Length::Fixed(2)),
        0xd6 => FirstByte::Ext(Length::Fixed(4)),
        0xd7 => FirstByte::Ext(Length::Fixed(8)),
        0xd8 => FirstByte::Ext(Length::Fixed(16)),
        0xd9 => FirstByte::Text(Length::One),
        0xda => FirstByte::Text(Length::Two),
        0xdb => FirstByte::Text(Length::Four),
        0xdc => FirstByte::List(Length::Two),
        0xdd => FirstByte::List(Length::Four),
        0xde => FirstByte::Map(Length::Two),
        0xdf => FirstByte::Map(Length::Four),
        _ => FirstByte::Unused,
    }
}
