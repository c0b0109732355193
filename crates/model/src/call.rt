// The calls, in the order of their kind numbers, each with its fields in the paper's order.
#[derive(Clone, Copy)]
pub enum Call {
    Deposit {
        member: u32,
        token: u32,
        amount: u32,
    },
    Withdraw {
        member: u32,
        token: u32,
        amount: u32,
    },
    Order {
        ticket: u32,
        member: u32,
        market: u32,
        side: u32,
        limit: u32,
        amount: u32,
    },
    Cancel {
        ticket: u32,
        member: u32,
    },
    Open {
        market: u32,
        block: u32,
        reference: u32,
        slack: u32,
        length: u32,
    },
    Enter {
        ticket: u32,
    },
    Match {
        market: u32,
        block: u32,
    },
    Bid {
        market: u32,
        member: u32,
        block: u32,
        side: u32,
        base: u32,
        bound: u32,
    },
    Settle {
        market: u32,
        block: u32,
    },
    Claim {
        ticket: u32,
    },
    Leave {
        ticket: u32,
        member: u32,
    },
}
