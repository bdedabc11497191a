//! Laws of the texts.

ghost use Rattle.std.specs.Prelude.{◌≡◌};
ghost use Rattle.spy_grammar.specs.declared.code.Code.{Code};
ghost use Rattle.findings.specs.declared.finding.Finding.{Finding};
ghost use Rattle.findings.specs.Codes.{code_text};
ghost use Rattle.findings.specs.Texts.{report_text, Good};

/// No two reports have one text.
#[tactic(auto, using(crate::proofs::ReadLaws::texts_apart))]
pub fn one_text()
    ensures { (f g : Finding) → Good f → Good g → report_text f ≡ report_text g → f ≡ g }
{}

/// No two codes have one text.
#[tactic(auto, using(crate::proofs::ReadLaws::codes_apart))]
pub fn one_code_text()
    ensures { (c d : Code) → code_text c ≡ code_text d → c ≡ d }
{}
