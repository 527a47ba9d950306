// The sheet of all factors, as text.
ghost use Rattle.std.specs.Prelude.{◌≡◌, length};
ghost use Rattle.record.specs.Answers.{count_answer, buffer_left};
ghost use Rattle.listing.specs.Sheet.{record_text, total_line, text_refusal, text_answer, total_refusal};

use listing::{SheetAnswer, Totals};
use record::CountAnswer;

// Writes the lines of a record file of either version, and adds its counts to the totals.
#[unsafe(no_mangle)]
pub extern "C" fn plg_sheet_record(bytes: &[u8], totals: Totals, text: &mut [u8]) -> SheetAnswer
    ensures value { result ≡ text_answer bytes.now totals (length text.old) }
    ensures text_after { text.new ≡ buffer_left (text_refusal bytes.now totals (length text.old)) (record_text bytes.now) text.old }
{
    ploegelster::sheets::plg_sheet_record(bytes, totals, text)
}

// Writes the closing line.
#[unsafe(no_mangle)]
pub extern "C" fn plg_sheet_total(totals: Totals, text: &mut [u8]) -> CountAnswer
    ensures value { result ≡ count_answer (total_refusal totals (length text.old)) (length (total_line totals)) }
    ensures text_after { text.new ≡ buffer_left (total_refusal totals (length text.old)) (total_line totals) text.old }
{
    ploegelster::sheets::plg_sheet_total(totals, text)
}
