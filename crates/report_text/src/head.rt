ghost use Rattle.std.specs.Prelude.{◌≡◌, ◌++◌, OnOk};
ghost use Rattle.sig_base.specs.Ratio.{fraction_of};
ghost use Rattle.plan_certificate.specs.Certificate.{certificate_of};
ghost use Rattle.report_text.specs.Head.{title_line, claim_line, least_line, nodes_line, head_lines};

use crate::figures::put_ratio;
use junction_model::Junction;
use plan_certificate::{Certificate, Claim};
use sig_base::{NoMemory, Ratio, Title, put, put_bytes, put_number};

#[tactic(auto, unfolding(crate::specs::Head::title_line))]
fn put_title(text: &mut Vec<u8>, title: &Title) -> Result<(), NoMemory>
    ensures { OnOk result (text.new.items ≡ text.old.items ++ title_line title.now) }
{
    put(text, "junction ")?;
    put_bytes(text, title.bytes())?;
    put(text, "\n")
}

#[tactic(auto, unfolding(crate::specs::Head::claim_line))]
pub fn put_claim(text: &mut Vec<u8>, claim: Claim) -> Result<(), NoMemory>
    ensures { OnOk result (text.new.items ≡ text.old.items ++ claim_line claim) }
{
    put(text, "claim ")?;
    put(text, claim.word())?;
    put(text, "\n")
}

#[tactic(auto, unfolding(crate::specs::Head::least_line))]
fn put_least(text: &mut Vec<u8>, least: &Ratio) -> Result<(), NoMemory>
    ensures { OnOk result (text.new.items ≡ text.old.items ++ least_line (fraction_of least.now)) }
{
    put(text, "least ")?;
    put_ratio(text, least)?;
    put(text, "\n")
}

#[tactic(auto, unfolding(crate::specs::Head::nodes_line))]
pub fn put_nodes(text: &mut Vec<u8>, count: u128) -> Result<(), NoMemory>
    ensures { OnOk result (text.new.items ≡ text.old.items ++ nodes_line count) }
{
    put(text, "nodes ")?;
    put_number(text, count)?;
    put(text, "\n")
}

/// The junction, what is claimed of it for which least multiplier, and how many nodes show it.
pub fn put_head(
    text: &mut Vec<u8>,
    junction: &Junction,
    certificate: &Certificate,
) -> Result<(), NoMemory>
    ensures { OnOk result (text.new.items ≡ text.old.items
        ++ head_lines junction.now (certificate_of certificate.now)) }
{
    put_title(text, junction.title())?;
    put_claim(text, certificate.claim)?;
    put_least(text, &certificate.least)?;
    put_nodes(text, certificate.nodes())
}
