// What is searched: two files and settings, through refusals 1 to 8 (document 01, "The five outer calls and what they turn away").
#![tactic(auto)]

ghost use Rattle.std.specs.Prelude.{◌≡◌};
ghost use Rattle.inputs.specs.Inputs.{examine_says, examine_paper};

use lookup::Rules;
use packed::{Refusal, Refused};

// Two accepted files of one kind and settings, as what is searched in numbers.
pub fn examine(file0: &[u8], file1: &[u8], settings: &[u8]) -> Result<Rules, Refused>
    ensures { examine_paper result ≡ examine_says file0.now file1.now settings.now }
{
    let first = packed::read_file(file0, 0)?;
    let second = packed::read_file(file1, 1)?;
    let kinds_differ = first.directed != second.directed;
    if kinds_differ {
        return Err(Refused::from(Refusal::KindsDiffer));
    }
    let chosen = settings::read_settings(settings)?;
    Ok(Rules {
        directed: second.directed,
        n: [first.nodes, second.nodes],
        edges: [first.edges, second.edges],
        chosen,
    })
}
