ghost use Rattle.std.specs.Prelude.{◌≡◌};
ghost use Rattle.desk_base.specs.Limit.{limit_text, limit_max};

/// A counted quantity that the desk bounds. A limit is passed where the quantity is greater than
/// its number.
#[derive(Clone, Copy, Debug, PartialEq, Eq)]
pub enum LimitName {
    FileBytes,
    Files,
    TextBytes,
    NameBytes,
    Promises,
    Findings,
    Links,
    Vouches,
    WhoBytes,
    ReasonBytes,
    LineBytes,
    ScriptBytes,
    BundleBytes,
    HeadBytes,
    BodyBytes,
    Headers,
}

impl LimitName {
    /// The name as it is printed. It takes no memory.
    pub fn text(&self) -> &[u8]
        ensures { result.now ≡ limit_text self.now }
    {
        let text: &str = match self {
            LimitName::FileBytes => "file bytes",
            LimitName::Files => "files",
            LimitName::TextBytes => "text bytes",
            LimitName::NameBytes => "name bytes",
            LimitName::Promises => "promises",
            LimitName::Findings => "findings",
            LimitName::Links => "links",
            LimitName::Vouches => "vouches",
            LimitName::WhoBytes => "who bytes",
            LimitName::ReasonBytes => "reason bytes",
            LimitName::LineBytes => "line bytes",
            LimitName::ScriptBytes => "script bytes",
            LimitName::BundleBytes => "bundle bytes",
            LimitName::HeadBytes => "head bytes",
            LimitName::BodyBytes => "body bytes",
            LimitName::Headers => "headers",
        };
        text.as_bytes()
    }

    /// The greatest number that is allowed. It takes no memory.
    pub fn max(&self) -> u64
        ensures { result ≡ limit_max self.now }
    {
        match self {
            LimitName::FileBytes => 262_144,
            LimitName::Files => 4096,
            LimitName::TextBytes => 16_777_216,
            LimitName::NameBytes => 64,
            LimitName::Promises => 65_536,
            LimitName::Findings => 65_536,
            LimitName::Links => 1_048_576,
            LimitName::Vouches => 65_536,
            LimitName::WhoBytes => 64,
            LimitName::ReasonBytes => 1024,
            LimitName::LineBytes => 2_097_152,
            LimitName::ScriptBytes => 1_073_741_824,
            LimitName::BundleBytes => 20_971_520,
            LimitName::HeadBytes => 16_384,
            LimitName::BodyBytes => 2_097_152,
            LimitName::Headers => 64,
        }
    }
}
