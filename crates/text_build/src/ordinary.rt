// Texts of which trees may be read without a survey.

ghost use Rattle.std.specs.Prelude.{◌≡◌, map};
ghost use Rattle.rtl_tree.specs.Symbols.{terminal};
ghost use Rattle.text_build.specs.Ordinary.{is_ordinary, needs_survey};

use rtl_tree::symbol::{Symbol, Terminal};

/// So many tokens may follow one another with no semicolon among them. What is read of such a text is nested no deeper
/// than this and 600 levels more (200 constructs, the blocks that they make, and 200 statements), so that it can be
/// walked.
pub const MOST_TOKENS: usize = 4096;

/// Whether a token begins attributes, or says that there are generate constructs.
fn needs_survey(symbol: Symbol) -> bool
    ensures { result ≡ needs_survey symbol }
{
    match symbol {
        Symbol::OpenAttribute | Symbol::Generate | Symbol::Genvar => true,
        _ => false,
    }
}

/// Whether a text has no attributes and none of the words `generate` and `genvar`, and ends or has a semicolon within
/// each 4,096 tokens, as counted from its first on and behind each semicolon.
pub fn is_ordinary(tokens: &[Terminal]) -> bool
    ensures { result ≡ is_ordinary (map terminal tokens.now) }
{
    let mut left = MOST_TOKENS;
    for token in tokens {
        if left == 0 {
            return false;
        }
        if needs_survey(token.symbol) {
            return false;
        }
        if token.symbol == Symbol::Semicolon {
            left = MOST_TOKENS;
        } else {
            left -= 1;
        }
    }
    true
}
