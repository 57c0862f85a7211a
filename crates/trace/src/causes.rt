use crate::rows::CauseRow;

// The direct causes of an event: the one that came last before it on the same port, and the send if it is a receipt.
#[derive(Clone, Copy, PartialEq, Eq, Debug)]
pub struct DirectCauses {
    pub previous: Option<u16>,
    pub send: Option<u16>,
}

// What a trace keeps of the causes of an event: the direct ones, and the row of all that happened before it.
#[derive(Clone, Copy)]
pub(crate) struct EventCauses {
    pub(crate) direct: DirectCauses,
    pub(crate) row: CauseRow,
}
