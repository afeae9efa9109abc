//! What a table can be exported as, and by what filters; `exporting` reads it of the command line.

ghost use Rattle.std.specs.Prelude.{◌≡◌};
ghost use Rattle.stickd_ctl.specs.Exporting as spec;

/// What a table can be exported as.
#[derive(Clone, Copy, Debug, PartialEq, Eq)]
pub enum ExportForm {
    /// Comma-separated values (RFC 4180), with a heading.
    Csv,
    /// What `--json` shows of a listing.
    Json,
    /// What `nft -f` takes.
    Nft,
    /// What `ipset restore` takes.
    Ipset,
}

/// Whether a word can stand in a filter: it ends no command and no line.
pub fn can_filter(word: &[u8]) -> bool
    ensures { result ≡ spec.can_filter word.now }
{
    word.iter().all(|byte| *byte != b';' && *byte != b'\n')
}

/// The form of this name, if there is one.
pub fn read_export_form(word: &[u8]) -> Option<ExportForm>
    ensures { result ≡ spec.form_of word.now }
{
    if word == b"csv".as_slice() {
        return Some(ExportForm::Csv);
    }
    if word == b"json".as_slice() {
        return Some(ExportForm::Json);
    }
    if word == b"nft".as_slice() {
        return Some(ExportForm::Nft);
    }
    if word == b"ipset".as_slice() {
        return Some(ExportForm::Ipset);
    }
    None
}
