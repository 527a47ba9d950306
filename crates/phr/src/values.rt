// The values of a file, each in eight bytes.
ghost use Rattle.std.specs.Prelude.{◌≡◌, ◌+◌, ◌*◌, ◌<◌, ◌≤◌, true, ◌++◌, length, take, drop};
ghost use Rattle.std.specs.Simd.{first_chunks};
ghost use Rattle.laws.specs.Lists.{written, first_failing};
ghost use Rattle.phr.specs.Bytes.{low_first, twos_complement, values_bytes, value_at, values_from};
ghost use Rattle.phr.specs.File.{value_in_range};
ghost use Rattle.phr.specs.Kinds.{number_of_kind};

use crate::kinds::Kind;

// The first of count values from a place on that is outside the range of their kind, or count.
pub(crate) fn first_outside(bytes: &[u8], place: usize, kind: Kind, count: usize) -> usize
    requires { place + 8 * count ≤ length bytes.now }
    ensures { result ≡ first_failing (value_in_range (number_of_kind kind)) (values_from place count bytes.now) }
{
    if surely_in_range(bytes, place, kind, count) {
        return count;
    }
    search_outside(bytes, place, kind, count)
}

// The values from a place on, at the front of the buffer.
pub(crate) fn read_values(bytes: &[u8], place: usize, count: usize, buffer: &mut [i64])
    requires { (place + 8 * count ≤ length bytes.now) × (count ≤ length buffer.old) }
    ensures { buffer.new ≡ written (values_from place count bytes.now) buffer.old }
{
    for (i, chunk) in chunks_from(bytes, place, count).iter().enumerate() {
        buffer[i] = i64::from_le_bytes(*chunk);
    }
}

// The first value outside the range of its kind, or how many there are.
pub(crate) fn first_unfit(kind: Kind, values: &[i64]) -> usize
    ensures { result ≡ first_failing (value_in_range (number_of_kind kind)) values.now }
{
    for (i, value) in values.iter().enumerate() {
        if !kind.has(*value) {
            return i;
        }
    }
    values.len()
}

// The values' bytes from a place on.
pub(crate) fn write_values(values: &[i64], place: usize, buffer: &mut [u8])
    requires { place + 8 * length values.now ≤ length buffer.old }
    ensures { buffer.new ≡ take place buffer.old ++ written (values_bytes values.now) (drop place buffer.old) }
{
    for (i, value) in values.iter().enumerate() {
        write_value(buffer, place + 8 * i, *value);
    }
}

// Whether count values from a place on surely lie in the range of their kind.
// The pass has no way out, so that a machine works several values at a time. A value at the upper end may leave it unsure, and the search decides.
fn surely_in_range(bytes: &[u8], place: usize, kind: Kind, count: usize) -> bool
    requires { place + 8 * count ≤ length bytes.now }
    ensures { result ≡ true → first_failing (value_in_range (number_of_kind kind)) (values_from place count bytes.now) ≡ count }
{
    let end = kind.end();
    let mut reached: u64 = 0;
    for chunk in chunks_from(bytes, place, count) {
        reached |= u64::from_le_bytes(*chunk).wrapping_add(end);
    }
    reached <= 2 * end
}

// The bytes of count values from a place on, eight for each.
fn chunks_from(bytes: &[u8], place: usize, count: usize) -> &[[u8; 8]]
    requires { place + 8 * count ≤ length bytes.now }
    ensures { (length result.now ≡ count) × (result.now ≡ first_chunks 8 count (drop place bytes.now)) }
{
    let (chunks, _) = bytes[place..place + 8 * count].as_chunks::<8>();
    chunks
}

// The first of count values from a place on that is outside the range of their kind, or count, looked for one by one.
fn search_outside(bytes: &[u8], place: usize, kind: Kind, count: usize) -> usize
    requires { place + 8 * count ≤ length bytes.now }
    ensures { result ≡ first_failing (value_in_range (number_of_kind kind)) (values_from place count bytes.now) }
{
    for (i, chunk) in chunks_from(bytes, place, count).iter().enumerate() {
        if !kind.has(i64::from_le_bytes(*chunk)) {
            return i;
        }
    }
    count
}

// The value whose eight bytes start at a place.
pub(crate) fn value_at(bytes: &[u8], place: usize) -> i64
    requires { place + 8 ≤ length bytes.now }
    ensures { result ≡ value_at bytes.now place }
{
    i64::from_le_bytes(chunks_from(bytes, place, 1)[0])
}

// A value's eight bytes from a place on.
pub(crate) fn write_value(buffer: &mut [u8], place: usize, z: i64)
    requires { place + 8 ≤ length buffer.old }
    ensures { buffer.new ≡ take place buffer.old ++ written (low_first 8 (twos_complement z)) (drop place buffer.old) }
{
    buffer[place..place + 8].copy_from_slice(&z.to_le_bytes());
}
