// Where the data of a child goes, for every plan and every list of steps. A law is a function that does nothing: its
// contract is what is proved.

ghost use Rattle.nk_half_laws.specs.Pieces.{DataCountLaw, DataLaw, DataOrderLaw, DropsLaw, ShownLaw};

/// The data entries of the trace are, in order, the data callbacks of the journal.
pub fn data_order_law()
    ensures { DataOrderLaw }
{}

/// What ran, was dropped, waits and is held is no more than what was taken of the background lane,
/// place by place and in number, and all of it while the child is not broken.
pub fn data_law()
    ensures places { DataLaw }
    ensures numbers { DataCountLaw }
{}

/// The pieces that were shown, with those that wait and are held, are among those that were taken,
/// and all of them while the child is not broken and keeps no failure.
pub fn shown_law()
    ensures { ShownLaw }
{}

/// Where a piece was dropped, its status is the failure that is kept.
pub fn drops_law()
    ensures { DropsLaw }
{}
