#![tactic(auto, unfolding(refusal::specs::Check::first, refusal::specs::Check::refused_if, refusal::specs::Outcome::after))]

// Writing an archive index from its settings and its list.
ghost use Rattle.std.specs.Prelude.{◌≡◌, ◌≤◌, length};
ghost use Rattle.refusal.specs.Check.{silent};
ghost use Rattle.refusal.specs.Outcome.{answered, after, written_outcome};
ghost use Rattle.refusal.specs.Output.{filled};
ghost use Rattle.index_layout.specs.Layout.{index_length_of};
ghost use Rattle.index_open.specs.Open as check;
ghost use Rattle.index_file.specs.File.{file_of};
ghost use Rattle.index_file.specs.Held.{Held};
ghost use Rattle.index_writer.specs.Write as spec;

use index_file::{write_last_keys, write_page_hashes, write_pages};
use index_footer::write_footer;
use index_layout::{
    LEAST_KEY_LENGTH, LEAST_OFFSET_WIDTH, LEAST_VERSION, Layout, MOST_ENTRIES, MOST_KEY_LENGTH,
    MOST_OFFSET_WIDTH, MOST_VERSION,
};
use numbers::within;
use refusal::{Reason, Refusal};

// What an index is written with, beside its list: version, offset width and key length.
#[derive(Clone, Copy)]
pub struct Settings {
    pub version: u8,
    pub offset_width: u8,
    pub key_length: u8,
}

// Whether version, offset width and key length are ones that an index may have.
#[tactic(auto, unfolding(crate::specs::Write::settings_right))]
pub fn settings_right(settings: Settings) -> bool
    ensures { result ≡ spec.settings_right settings }
{
    within(
        u32::from(settings.version),
        u32::from(LEAST_VERSION),
        u32::from(MOST_VERSION),
    ) && within(
        u32::from(settings.offset_width),
        u32::from(LEAST_OFFSET_WIDTH),
        u32::from(MOST_OFFSET_WIDTH),
    ) && within(
        u32::from(settings.key_length),
        u32::from(LEAST_KEY_LENGTH),
        u32::from(MOST_KEY_LENGTH),
    )
}

// Refusals 11, 12, 4 and 8, and the layout of the file.
fn judge(settings: Settings, list: &[u8]) -> Result<Layout, Refusal>
    ensures { check.outcome result
        ≡ after (spec.input_check settings list.now) (answered (check.layout_values (spec.layout_for settings list.now))) }
{
    if !settings_right(settings) {
        return Err(Reason::Settings.at(0));
    }
    let Settings {
        version,
        offset_width,
        key_length,
    } = settings;
    let size = Layout::new(version, offset_width, key_length, 0).entry_size();
    if list.len() % size != 0 {
        return Err(Reason::ListLength.at(0));
    }
    let entries = list.len() / size;
    if MOST_ENTRIES < entries as u64 {
        return Err(Reason::EntryCount.at(0));
    }
    let count = entries as u32;
    let fall = rising::fall(list, size as u16, key_length, count);
    if fall < count {
        return Err(Reason::IndexOrder.at(fall as usize));
    }
    Ok(Layout::new(version, offset_width, key_length, count))
}

// The whole file, part by part.
fn write_file(list: &[u8], l: Layout, output: &mut [u8])
    requires held { Held list.now l }
    requires l_in_bounds { index_length_of l ≤ length output.old }
    ensures { output.new ≡ filled silent (file_of list.now l) output.old }
{
    write_pages(list, l, output);
    write_last_keys(l, output);
    write_page_hashes(l, output);
    write_footer(l, output);
}

// Writes the index of a list into the output.
pub fn write(settings: Settings, list: &[u8], output: &mut [u8]) -> Result<usize, Refusal>
    ensures result_value { written_outcome result ≡ spec.write_outcome settings list.now (length output.old) }
    ensures output_after { output.new
        ≡ filled (spec.write_check settings list.now (length output.old))
        (file_of list.now (spec.layout_for settings list.now)) output.old }
{
    let l = judge(settings, list)?;
    if output.len() < l.length() {
        return Err(Reason::OutputShort.at(0));
    }
    write_file(list, l, output);
    Ok(l.length())
}

// The length of the file that a list gives.
pub fn written_length(settings: Settings, list: &[u8]) -> Result<usize, Refusal>
    ensures { written_outcome result ≡ spec.length_outcome settings list.now }
{
    Ok(judge(settings, list)?.length())
}
