//! How long the tables of studies are, and how much of one was written.

use cut_pool_cases::Study;

const HEADER: &str = "k,h,l,f,trials,receivers,conflicts,silent,extra,votes,decided,right,ppm\n";

/// How many bytes these are, if they are the first ones of a study's table.
pub(crate) fn prefix_len(study: Study, bytes: &[u8]) -> Option<usize> {
    let rest = after(bytes, HEADER)?;
    after(rest, study.lines)?.is_empty().then_some(bytes.len())
}

/// How many bytes a study's table has.
pub(crate) fn table_len(study: Study) -> usize {
    HEADER.len().saturating_add(study.lines.len())
}

/// What comes after a text in bytes that begin with it, or no bytes if they are its first ones.
fn after<'a>(bytes: &'a [u8], text: &str) -> Option<&'a [u8]> {
    if text.as_bytes().starts_with(bytes) {
        return Some(&[]);
    }
    bytes.strip_prefix(text.as_bytes())
}
