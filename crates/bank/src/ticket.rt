// What a job asks for: a number of its own, the slots from its arrival up to before its deadline, its work in core-slots
// (one core for one slot), and the most cores that it can use in a slot. Any numbers can stand in a ticket.
#[derive(Clone, Copy, PartialEq, Eq, Debug, Default)]
pub struct Ticket {
    pub number: u32,
    pub arrival: u32,
    pub deadline: u32,
    pub work: u32,
    pub bound: u32,
}
