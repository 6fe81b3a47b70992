//! The office to begin with and its networks, from the files that the options name.
ghost use Rattle.std.specs.Prelude.{◌≡◌, ◌≤◌, IfErr, IfOk, length};
ghost use Rattle.line_network.specs.NetworkCount.{max_networks};
ghost use Rattle.office_files.specs.FirstOffice.{AreInFiles, AreNetworksAt, BeginsWith};
ghost use Rattle.office_files.specs.InFile.{IsNetworkIn, IsOfficeIn, IsRosterIn};
ghost use Rattle.office_files.specs.Refused.{AreFilesRefused, AreNetworksRefused, IsNetworkRefused, IsOfficeRefused, IsRosterRefused, IsStartRefused, IsUnread};

use crate::file_system::FileSystem;
use crate::stop::Stop;
use crate::stopped::Stopped;
use crate::told_file::{ToldFile, open};
use crate::told_files::{told_of_checkpoint, told_of_network, told_of_roster};
use checkpoint::read_checkpoint;
use command_line::{OfficeOptions, Start};
use fleet_rows::Roster;
use line_engine::StdDevice;
use line_network::{MAX_NETWORKS, Network, NetworksFault};
use operating_db::OfficeState;
use std::alloc::Global;
use std::io::Read;

/// The office to begin with and the networks, as files say them.
#[derive(Drop)]
pub struct OfficeFiles {
    pub first: OfficeState,
    pub networks: Vec<Network>,
}

/// The office to begin with and the networks that the options name. What is wrong is found in this order: too many
/// networks, the roster or the checkpoint, the networks in their order.
pub fn read_files<S: FileSystem + AllocGlobal>(
    rt: &S,
    options: &OfficeOptions<'_>,
) -> Result<OfficeFiles, Stopped>
    ensures files { IfOk result (λ files. AreInFiles (S.bytes_at rt.now) options.now files.first.office files.networks.items) }
    ensures counted { IfOk result (λ files. files.first.networks ≡ length files.networks.items) }
    ensures refused { IfErr result (AreFilesRefused (S.bytes_at rt.now) options.now) }
{
    let count = options.networks.len();
    if count == 0 || count > MAX_NETWORKS as usize {
        return Err(Stopped::from(Stop::Networks(NetworksFault::BadNetworkCount)));
    }
    let first = read_start(rt, options.start, count as u32)?;
    let networks = read_networks(rt, &options.networks)?;
    Ok(OfficeFiles { first, networks })
}

/// The office that a file says, where there are so many networks.
fn read_start<S: FileSystem + AllocGlobal>(
    rt: &S,
    start: Start<'_>,
    networks: u32,
) -> Result<OfficeState, Stopped>
    requires from_one { 1 ≤ networks }
    requires few { networks ≤ max_networks }
    ensures begins { IfOk result (λ first. BeginsWith (S.bytes_at rt.now) networks start.entry first.office) }
    ensures counted { IfOk result (λ first. first.networks ≡ networks) }
    ensures refused { IfErr result (IsStartRefused (S.bytes_at rt.now) networks start.entry) }
{
    match start {
        Start::Roster(path) => {
            let roster = read_roster(rt, path)?;
            Ok(OfficeState::new(rt.alloc(), &roster, networks)?)
        }
        Start::Checkpoint(path) => read_office(rt, path, networks),
    }
}

/// The office that the file at a path says as a checkpoint, where there are so many networks.
fn read_office<S: FileSystem + AllocGlobal>(
    rt: &S,
    path: &str,
    networks: u32,
) -> Result<OfficeState, Stopped>
    requires from_one { 1 ≤ networks }
    requires few { networks ≤ max_networks }
    ensures office { IfOk result (λ first. IsOfficeIn (S.bytes_at rt.now path.now) networks first.office) }
    ensures counted { IfOk result (λ first. first.networks ≡ networks) }
    ensures refused { IfErr result (IsUnread (IsOfficeRefused (S.bytes_at rt.now path.now) networks path.now)) }
{
    let file = open(rt, path)?;
    office_in(rt.alloc(), path, file, networks)
}

/// The office that an open file says as a checkpoint.
fn office_in<F: Read + Drop>(
    alloc: Global,
    path: &str,
    file: ToldFile<F>,
    networks: u32,
) -> Result<OfficeState, Stopped>
    requires from_one { 1 ≤ networks }
    requires few { networks ≤ max_networks }
    ensures office { IfOk result (λ first. IsOfficeIn (F.remaining file.file) networks first.office) }
    ensures counted { IfOk result (λ first. first.networks ≡ networks) }
    ensures refused { IfErr result (IsOfficeRefused (F.remaining file.file) networks path.now) }
{
    let mut reader = StdDevice::new(file);
    match read_checkpoint(alloc, &mut reader, networks) {
        Ok(state) => Ok(state),
        Err(fault) => Err(told_of_checkpoint(alloc, path, fault, &reader.device)),
    }
}

/// The roster that the file at a path says.
pub fn read_roster<S: FileSystem + AllocGlobal>(rt: &S, path: &str) -> Result<Roster, Stopped>
    ensures roster { IfOk result (IsRosterIn (S.bytes_at rt.now path.now)) }
    ensures refused { IfErr result (IsUnread (IsRosterRefused (S.bytes_at rt.now path.now) path.now)) }
{
    let file = open(rt, path)?;
    roster_in(rt.alloc(), path, file)
}

/// The roster that an open file says.
fn roster_in<F: Read + Drop>(
    alloc: Global,
    path: &str,
    file: ToldFile<F>,
) -> Result<Roster, Stopped>
    ensures roster { IfOk result (IsRosterIn (F.remaining file.file)) }
    ensures refused { IfErr result (IsRosterRefused (F.remaining file.file) path.now) }
{
    let mut file = file;
    match fleet_rows::read_roster(alloc, &mut file) {
        Ok(roster) => Ok(roster),
        Err(refusal) => Err(told_of_roster(alloc, path, &refusal, &file)),
    }
}

/// The networks that the files at these paths say, in their order.
fn read_networks<S: FileSystem + AllocGlobal>(
    rt: &S,
    paths: &[&str],
) -> Result<Vec<Network>, Stopped>
    ensures networks { IfOk result (λ networks. AreNetworksAt (S.bytes_at rt.now) paths.now networks.items) }
    ensures counted { IfOk result (λ networks. length networks.items ≡ length paths.now) }
    ensures refused { IfErr result (AreNetworksRefused (S.bytes_at rt.now) paths.now) }
{
    let mut networks = Vec::with_capacity(rt.alloc(), paths.len())?;
    for path in paths {
        networks.push(read_network(rt, path)?)?;
    }
    Ok(networks)
}

/// The network that the file at a path says.
fn read_network<S: FileSystem + AllocGlobal>(rt: &S, path: &str) -> Result<Network, Stopped>
    ensures network { IfOk result (IsNetworkIn (S.bytes_at rt.now path.now)) }
    ensures refused { IfErr result (IsUnread (IsNetworkRefused (S.bytes_at rt.now path.now) path.now)) }
{
    let file = open(rt, path)?;
    network_in(rt.alloc(), path, file)
}

/// The network that an open file says.
fn network_in<F: Read + Drop>(
    alloc: Global,
    path: &str,
    file: ToldFile<F>,
) -> Result<Network, Stopped>
    ensures network { IfOk result (IsNetworkIn (F.remaining file.file)) }
    ensures refused { IfErr result (IsNetworkRefused (F.remaining file.file) path.now) }
{
    let mut file = file;
    match line_network::read_network(alloc, &mut file) {
        Ok(network) => Ok(network),
        Err(refusal) => Err(told_of_network(alloc, path, &refusal, &file)),
    }
}
