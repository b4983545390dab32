//! What programs in other languages can call. `bench/` measures through it.
#![tactic(auto)]

ghost use Rattle.std.specs.Prelude.{◌≡◌, MatchResult};
ghost use Rattle.fault.specs.Faults.{number_of};
ghost use Rattle.kit.specs.Atoms.{atoms};
ghost use Rattle.exports.specs.Answers.{Answered, Judged};

use catalogue::{
    CONNECTIONS, Catalogue, ConnectionRecord, Counts, PARTS, PINS, PartRecord, PinRecord, Record,
};
use fault::Fault;
use joiner::join;
use kit::Atoms;
use reader::read;

/// The number that stands for a verdict: a caller through the C interface is told no more.
fn number(verdict: Result<Counts, Fault>) -> u32
    ensures { MatchResult verdict (λ _. result ≡ 0) (λ fault. result ≡ number_of fault.cause) }
{
    match verdict {
        Ok(_) => 0,
        Err(fault) => u32::from(fault.cause.number()),
    }
}

/// Reads a bundle: 0 where all its texts are read, and else the number of the fault.
#[unsafe(no_mangle)]
pub extern "C" fn tethersecond_read(bytes: &[u8]) -> u32
    ensures { Answered bytes.now result }
{
    let mut pins = [PinRecord::BLANK; PINS];
    let mut parts = [PartRecord::BLANK; PARTS];
    let mut connections = [ConnectionRecord::BLANK; CONNECTIONS];
    let mut catalogue = Catalogue::over(&mut pins, &mut parts, &mut connections);
    number(read(bytes, &mut catalogue))
}

/// Reads and joins a bundle with the atoms: 0 where all its texts are joined, and else the number of
/// the fault.
#[unsafe(no_mangle)]
pub extern "C" fn tethersecond_join(bytes: &[u8]) -> u32
    ensures { Judged atoms bytes.now result }
{
    let mut pins = [PinRecord::BLANK; PINS];
    let mut parts = [PartRecord::BLANK; PARTS];
    let mut connections = [ConnectionRecord::BLANK; CONNECTIONS];
    let mut catalogue = Catalogue::over(&mut pins, &mut parts, &mut connections);
    number(join(&Atoms, bytes, &mut catalogue))
}
