// The patch round a thin circular shell at one depth. Document 02, C-16.
#![tactic(auto)]

ghost use Rattle.std.specs.Prelude.{◌≡◌, ◌≤◌, length};
ghost use Rattle.exponential.specs.program.Table.{table};
ghost use Rattle.cosine.specs.program.Table.{entry};
ghost use Rattle.janssen.specs.program.Pressure.{computed_by, computed};
ghost use Rattle.records.specs.Refusal.{answer};
ghost use Rattle.description.specs.Silo.{V_of};
ghost use Rattle.shell.specs.Shell.{is_circle, ReplyListOf};
ghost use Rattle.shell.specs.Promise.{ShellPromise};

use janssen::Section;
use records::refusal::Refusal;
use round::Patch;
use sheet::accepted::AcceptedSheet;

mod round; // the reply list from p_p and d_c

// Rule 19.
#[tactic(auto, unfolding(crate::specs::Shell::is_circle))]
fn is_circle(section: Section) -> bool
    ensures { result ≡ is_circle section }
{
    matches!(section, Section::Circle(_))
}

// The whole list for an accepted sheet and a depth of its wall, mm.
#[tactic(auto, using(crate::proofs::Call::patch_asks, crate::proofs::Bounds::patch_fits, crate::proofs::Bounds::width_most))]
fn fill(accepted: &AcceptedSheet, depth: u64, reply: &mut [i32])
    requires { (depth ≤ V_of accepted.now.sheet.now) × (length reply.old ≡ 361) }
    ensures { ReplyListOf computed entry accepted.now.sheet.now depth reply.new }
{
    let basis = answers::fill::basis(accepted);
    let patch = Patch {
        load: basis.patch_load(depth),
        diameter: basis.dc,
    };
    patch.fill(reply);
}

// The call: the reply list filled, or the first refusal with the list as it was; the depth in mm below the brim.
pub fn shell_patch(sheet: &[u8], depth: u32, reply: &mut [i32]) -> Result<(), Refusal>
    ensures { ShellPromise computed_by table entry sheet.now depth reply.old (answer result) reply.new }
{
    let accepted = sheet::accept(sheet, depth as u64)?;
    if !is_circle(accepted.described.section) {
        return Err(Refusal::NotCircular);
    }
    if reply.len() != 361 {
        return Err(Refusal::ListLength);
    }
    fill(&accepted, depth as u64, reply);
    Ok(())
}
