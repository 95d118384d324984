//! Whether bytes are the shortest spelling of an integer.
ghost use Rattle.std.specs.Prelude.{◌≡◌, pos, ◌<ℤ◌, bytes_eq, Some, None};
ghost use Rattle.nv_msgpack.specs.Shortest.{unsigned_spelling, integer_spelling};
ghost use Rattle.nv_rpc.specs.Received.{if_shortest};

/// The number, where the bytes are its shortest spelling.
pub fn if_shortest(number: i64, bytes: &[u8]) -> Option<i64>
    ensures { result ≡ if_shortest bytes.now number }
{
    if is_shortest(number, bytes) {
        Some(number)
    } else {
        None
    }
}

fn is_shortest(number: i64, bytes: &[u8]) -> bool
    ensures { result ≡ bytes_eq bytes.now (integer_spelling number) }
{
    if number < 0 {
        is_negative(number, bytes)
    } else {
        is_unsigned(number as u64, bytes)
    }
}

#[tactic(auto, unfolding(nv_msgpack::specs::Shortest::unsigned_spelling))]
fn is_unsigned(number: u64, bytes: &[u8]) -> bool
    ensures { result ≡ bytes_eq bytes.now (unsigned_spelling number) }
{
    if number < 0x80 {
        bytes == [number as u8].as_slice()
    } else if number < 0x100 {
        bytes == [0xcc, number as u8].as_slice()
    } else if number < 0x1_0000 {
        let [a, b] = (number as u16).to_be_bytes();
        bytes == [0xcd, a, b].as_slice()
    } else if number < 0x1_0000_0000 {
        let [a, b, c, d] = (number as u32).to_be_bytes();
        bytes == [0xce, a, b, c, d].as_slice()
    } else {
        let [a, b, c, d, e, f, g, h] = number.to_be_bytes();
        bytes == [0xcf, a, b, c, d, e, f, g, h].as_slice()
    }
}

#[tactic(auto, unfolding(nv_msgpack::specs::Shortest::negative_spelling))]
fn is_negative(number: i64, bytes: &[u8]) -> bool
    requires { number <ℤ pos 0 }
    ensures { result ≡ bytes_eq bytes.now (integer_spelling number) }
{
    if number >= -0x20 {
        bytes == [(number as i8).cast_unsigned()].as_slice()
    } else if number >= -0x80 {
        bytes == [0xd0, (number as i8).cast_unsigned()].as_slice()
    } else if number >= -0x8000 {
        let [a, b] = (number as i16).cast_unsigned().to_be_bytes();
        bytes == [0xd1, a, b].as_slice()
    } else if number >= -0x8000_0000 {
        let [a, b, c, d] = (number as i32).cast_unsigned().to_be_bytes();
        bytes == [0xd2, a, b, c, d].as_slice()
    } else {
        let [a, b, c, d, e, f, g, h] = number.cast_unsigned().to_be_bytes();
        bytes == [0xd3, a, b, c, d, e, f, g, h].as_slice()
    }
}
