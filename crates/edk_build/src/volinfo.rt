//! The listing of the volumes in a file of the tree.
ghost use Rattle.std.specs.Prelude.{◌≡◌, Some};
ghost use Rattle.build_base.specs.Answer.{Answers, Finds};
ghost use Rattle.build_base.specs.FaultText.{fault_of};
ghost use Rattle.build_base.specs.Outside.{HasFailed};
ghost use Rattle.volume_reader.specs.Listing.{whole_file};
ghost use Rattle.edk_build.specs.History.{IsTold};
ghost use Rattle.edk_build.specs.Statuses.{OnEnd, OnUsage, OnUnwritten, OnWriteFault, Causes};
ghost use Rattle.edk_build.specs.Volinfo.{listing_got, IsListed, IsVolinfo};

use crate::made::write_text;
use crate::status::Status;
use build_base::fault::fault_text;
use build_base::fault_codes::{FILE_ABSENT, FILE_TOO_LONG};
use build_base::file_limit::FILE_LIMIT;
use build_base::{
    Fault, Got, Path, Place, Refusal, Same, Sink, Target, Text, Tree, TreeFailed, refuse,
};
use std::alloc::Global;
use volume_reader::list_text;

// The refusal of a file as a whole, with its path as the detail.
fn refuse_file(alloc: Global, code: u16, path: &Path) -> Refusal
    ensures { Finds result (Some (fault_of code (whole_file path.now) path.now)) }
{
    let Ok(path) = path.copy(alloc) else {
        return Refusal::WantOfMemory;
    };
    let at = Place { path, line: 0 };
    refuse(alloc, code, &at, at.path.bytes())
}

// The listing of what is got of a file.
fn listing_got(alloc: Global, path: &Path, got: &Got) -> Result<Text, Refusal>
    ensures { Answers result (listing_got path.now got.now) }
{
    match got {
        Got::File(bytes) => list_text(alloc, path, bytes.bytes()),
        Got::Absent => Err(refuse_file(alloc, FILE_ABSENT, path)),
        Got::TooLong => Err(refuse_file(alloc, FILE_TOO_LONG, path)),
    }
}

// Ends with a listing, which goes to standard output.
fn tell_listing<S: Sink>(listing: &Text, sink: &mut S) -> Status
    ensures listed { IsListed listing.now result (S.written sink.old) (S.written sink.new) }
    ensures count { OnEnd result (S.faults sink.new ≡ S.faults sink.old) }
    ensures write_fault { OnWriteFault result (HasFailed (S.faults sink.old) (S.faults sink.new)) }
{
    match write_text(sink, &Target::Out, listing) {
        Ok(()) => Status::Done,
        Err(_) => Status::WriteFault,
    }
}

// Ends with a fault, whose text goes to standard error.
fn tell_refused<S: Sink>(alloc: Global, fault: &Fault, sink: &mut S) -> Status
    ensures told { IsTold fault.now result (S.written sink.old) (S.written sink.new) }
    ensures count { OnEnd result (S.faults sink.new ≡ S.faults sink.old) }
    ensures write_fault { OnWriteFault result (HasFailed (S.faults sink.old) (S.faults sink.new)) }
{
    let Ok(message) = fault_text(alloc, fault) else {
        return Status::WantOfMemory;
    };
    match write_text(sink, &Target::Err, &message) {
        Ok(()) => Status::FileFault,
        Err(_) => Status::WriteFault,
    }
}

/// Lists the volumes in a file of the tree, with their files and sections, on standard output.
pub fn volinfo<T: Tree, S: Sink>(alloc: Global, image: &Path, tree: &mut T, sink: &mut S) -> Status
    ensures told { IsVolinfo (T.held tree.old) image.now result (S.written sink.old)
        (S.written sink.new) }
    ensures unwritten { OnUnwritten result (S.written sink.new ≡ S.written sink.old) }
    ensures no_usage { OnUsage result ⊥ }
    ensures held { T.held tree.new ≡ T.held tree.old }
    ensures causes { Causes result (T.faults tree.old) (T.faults tree.new) (S.faults sink.old)
        (S.faults sink.new) }
{
    let got = match tree.read(image, FILE_LIMIT) {
        Ok(got) => got,
        Err(TreeFailed::Failed) => return Status::ReadFault,
        Err(TreeFailed::WantOfMemory) => return Status::WantOfMemory,
    };
    match listing_got(alloc, image, &got) {
        Ok(listing) => tell_listing(&listing, sink),
        Err(Refusal::Bad(fault)) => tell_refused(alloc, &fault, sink),
        Err(Refusal::WantOfMemory) => Status::WantOfMemory,
    }
}
