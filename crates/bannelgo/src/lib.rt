// What a host links: libbannelgo.a. "The image check and plain reading are exported to our Rust host." They answer one number; each
// answer of the sheet's calls is coded as seven (fields.rt). What is lent comes one by one, as C lends it.
#![tactic(auto)]

pub mod fields;

ghost use Rattle.grammar.specs.Questions.{Checked};
ghost use Rattle.reading.specs.Code.{CodedReading};
ghost use Rattle.bannelgo.specs.Coded.{CodedOpen, CodedEdit, CodedRead, CodedLookUp, CodedList};

use fields::Fields;

// The number of the first of questions 1 to 7 that the image fails, 0 where it passes all seven.
#[unsafe(no_mangle)]
pub extern "C" fn bannelgo_check_image(image: &[u8]) -> u64
    ensures { Checked image.now result }
{
    match checker::check(image) {
        Ok(()) => 0,
        Err(refusal) => u64::from(refusal),
    }
}

// The code of the plain reading of a text by an image.
#[unsafe(no_mangle)]
pub extern "C" fn bannelgo_plain_reading(image: &[u8], text: &[u8]) -> u64
    ensures { CodedReading image.now text.now result }
{
    reading::code::code_of(reading::plain::plain_reading(image, text))
}

// Opens a sheet.
#[unsafe(no_mangle)]
pub extern "C" fn bannelgo_open(
    image: &[u8],
    text: &[u8],
    buffer: &mut [u8],
    table: &mut [u64],
) -> Fields
    ensures { CodedOpen image.now text.now buffer.old table.old result buffer.new table.new }
{
    Fields::from(sheet::open::open(image, text, buffer, table))
}

// Edits a sheet.
#[unsafe(no_mangle)]
pub extern "C" fn bannelgo_edit(
    image: &[u8],
    buffer: &mut [u8],
    n: usize,
    table: &mut [u64],
    start: usize,
    end: usize,
    replacement: &[u8],
) -> Fields
    ensures { CodedEdit image.now buffer.old n table.old start end replacement.now result buffer.new table.new }
{
    Fields::from(sheet::edit::edit(image, buffer, n, table, start, end, replacement))
}

// Reads a sheet.
#[unsafe(no_mangle)]
pub extern "C" fn bannelgo_read(image: &[u8], buffer: &[u8], n: usize, table: &mut [u64]) -> Fields
    ensures { CodedRead image.now buffer.now n table.old result table.new }
{
    Fields::from(sheet::read::read_sheet(image, buffer, n, table))
}

// Looks up the word of a pair.
#[unsafe(no_mangle)]
pub extern "C" fn bannelgo_look_up(
    image: &[u8],
    buffer: &[u8],
    n: usize,
    table: &[u64],
    rule: usize,
    position: usize,
) -> Fields
    ensures { CodedLookUp image.now buffer.now n table.now rule position result }
{
    Fields::from(sheet::look_up::look_up(image, buffer, n, table, rule, position))
}

// Lists the rows of a sheet.
#[unsafe(no_mangle)]
pub extern "C" fn bannelgo_list(
    image: &[u8],
    buffer: &[u8],
    n: usize,
    table: &mut [u64],
    rows: &mut [u64],
) -> Fields
    ensures { CodedList image.now buffer.now n table.old rows.old result table.new rows.new }
{
    Fields::from(sheet::list::list_sheet(image, buffer, n, table, rows))
}
