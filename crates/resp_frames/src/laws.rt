//! Laws of the frames, as contracts of functions that do nothing.

ghost use Rattle.resp_frames.specs.Laws.{FramesAreThere, FramesAreOne, RequestsOnlyGrow, FaultsStay};

/// All bytes have a list of requests and an end.
pub fn frames_are_there()
    ensures { FramesAreThere }
{}

/// Bytes have one list of requests and one end.
pub fn frames_are_one()
    ensures { FramesAreOne }
{}

/// The requests of a front of the bytes are the first of all requests.
pub fn requests_only_grow()
    ensures { RequestsOnlyGrow }
{}

/// A fault of a front of the bytes is a fault of the bytes, at the same place.
pub fn faults_stay()
    ensures { FaultsStay }
{}
