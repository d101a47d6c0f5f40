ghost use Rattle.std.specs.Prelude.{◌≡◌};
ghost use Rattle.filing_model.specs.Common.Text.{text_eq};

/// `==` in the words of the definitions.
pub fn is_same_text(a: &str, b: &str) -> bool
    ensures { result ≡ text_eq a.now b.now }
{
    a == b
}
