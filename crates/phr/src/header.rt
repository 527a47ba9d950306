// The header: mark, version, kind and count, and in version 2 the starting phase.
ghost use Rattle.std.specs.Prelude.{◌≡◌, ◌<◌, ◌≤◌, true, ◌||◌, length, ◌==◌, slice_index_or, Ok};
ghost use Rattle.laws.specs.Lists.{written};
ghost use Rattle.record.specs.Refusals.{none};
ghost use Rattle.phr.specs.File.{first_eight};
ghost use Rattle.phr.specs.Kinds.{number_of_kind};
ghost use Rattle.phr.specs.Reading.{tests_of, sound_up_to, kind_of, count_of, version_of, head_length, start_of, record_answer};
ghost use Rattle.phr.specs.Told.{record_told};

use crate::Contents;
use crate::kinds::Kind;
use crate::values::value_at;

// The place of the first wrong byte among the first eight, else where they end. The versions that are known are 1 and the newest.
pub(crate) fn sound_up_to(bytes: &[u8], newest: u8) -> usize
    ensures { result ≡ sound_up_to (tests_of (λ b. (b == 1) || b == newest)) bytes.now }
{
    let first = &bytes[..bytes.len().min(8)];
    for (place, b) in first.iter().enumerate() {
        if !header_byte(place, *b, newest) {
            return place;
        }
    }
    first.len()
}

// Whether a byte may stand at a place of the header.
fn header_byte(place: usize, b: u8, newest: u8) -> bool
    ensures { result ≡ slice_index_or (tests_of (λ b. (b == 1) || b == newest)) place (λ _. true) b }
{
    match place {
        0 => b == 80,
        1 => b == 72,
        2 => b == 82,
        3 => b == 1 || b == newest,
        4 => b == 0,
        5 => b <= 1,
        _ => true,
    }
}

// The kind.
pub(crate) fn kind_of(bytes: &[u8]) -> Kind
    requires { (8 ≤ length bytes.now) × (kind_of bytes.now ≤ 1) }
    ensures { number_of_kind result ≡ kind_of bytes.now }
{
    if bytes[5] == 0 {
        Kind::Phase
    } else {
        Kind::Frequency
    }
}

// How many values the header says.
pub(crate) fn count_of(bytes: &[u8]) -> usize
    requires { 8 ≤ length bytes.now }
    ensures { result ≡ count_of bytes.now }
{
    usize::from(bytes[6]) + 256 * usize::from(bytes[7])
}

// The version.
fn version_of(bytes: &[u8]) -> u64
    requires { 8 ≤ length bytes.now }
    ensures { result ≡ version_of bytes.now }
{
    u64::from(bytes[3])
}

// The header's length in bytes.
pub(crate) fn head_length(bytes: &[u8]) -> usize
    requires { 8 ≤ length bytes.now }
    ensures { result ≡ head_length bytes.now }
{
    if bytes[3] == 2 {
        return 16;
    }
    8
}

// The starting phase.
pub(crate) fn start_of(bytes: &[u8]) -> i64
    requires { (8 ≤ length bytes.now) × (head_length bytes.now ≤ length bytes.now) }
    ensures { result ≡ start_of bytes.now }
{
    if bytes[3] == 2 {
        return value_at(bytes, 8);
    }
    0
}

// What a header that is there says.
pub(crate) fn said(bytes: &[u8]) -> Contents
    requires { (8 ≤ length bytes.now) × (kind_of bytes.now ≤ 1) × (head_length bytes.now ≤ length bytes.now) }
    ensures { record_told (Ok result) ≡ record_answer none bytes.now }
{
    Contents {
        version: version_of(bytes),
        kind: kind_of(bytes),
        start: start_of(bytes),
        count: count_of(bytes) as u64,
    }
}

// The first eight bytes, at the front of the buffer.
pub(crate) fn write_first_eight(version: u8, kind: Kind, count: usize, buffer: &mut [u8])
    requires { 8 ≤ length buffer.old }
    ensures { buffer.new ≡ written (first_eight version (number_of_kind kind) count) buffer.old }
{
    let kind = u64::from(kind) as u8;
    let low = (count % 256) as u8;
    let high = (count / 256 % 256) as u8;
    buffer[..8].copy_from_slice(&[b'P', b'H', b'R', version, 0, kind, low, high]);
}
