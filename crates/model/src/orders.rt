// A list of orders made by one call (document 02, L5): what it takes and where its answers go. The call's meaning stands in specs/OrderLists.antt.
use crate::answer::Answer;

// An order of the list: the fields of kind 3, in the paper's order. Call::Order has the same; a conversion would list them again.
#[derive(Clone, Copy)]
pub struct OrderFields {
    pub ticket: u32,
    pub member: u32,
    pub market: u32,
    pub side: u32,
    pub limit: u32,
    pub amount: u32,
}

// A place of the list of answers.
#[derive(Clone, Copy)]
pub struct AnswerPlace {
    pub answer: Answer,
}
