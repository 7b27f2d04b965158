// The C clothes of each answer: document 01's number and values of it, as the fields of a reply. The C interface needs plain numbers for
// refusals, kinds and conditions.
#![tactic(auto)]

ghost use Rattle.std.specs.Prelude.{◌≡◌, List, ℕ, ◌<◌};
ghost use Rattle.model.specs.Answers.{deleted, entry_made, move_made, started};
ghost use Rattle.model.specs.Said.{said_with, read_as, found_at, stored_as, evicted_as, listed_as, said_reading};
ghost use Rattle.judgement.specs.Said.{said};
ghost use Rattle.clothes.specs.Clothes.{number, reading_clothes, finding_clothes, setting_clothes, plan_dressed, turned_clothes, listing_clothes, numbered, judgement_clothes};

use judgement::Broken;
use model::{Evicted, MoveRecord, NO_MOVE, Numbered, Plan, Reading, Refusal, Stored};

// The replies. In each, `refusal` is document 01's number, 0 for success; what a call does not tell is 0.

// Read, serve and the plain engine, in two registers. The kind is 0 absent, 1 fresh, 2 old, 3 ahead; left tells something of fresh and old only.
#[repr(C)]
#[derive(Drop)]
pub struct BoughladderReading {
    pub refusal: u16,
    pub kind: u16,
    pub permission: u32,
    pub left: i64,
}

// Find. The kind is 0 absent, 9 at a place.
#[repr(C)]
#[derive(Drop)]
pub struct BoughladderFinding {
    pub refusal: u32,
    pub kind: u32,
    pub place: usize,
}

#[repr(C)]
#[derive(Drop)]
pub struct BoughladderSetting {
    pub refusal: u32,
    pub visits: usize,
    pub moves: usize,
}

// The hand is the one to pass next: on a refusal, the one that was passed.
#[repr(C)]
#[derive(Drop)]
pub struct BoughladderEvicting {
    pub refusal: u32,
    pub victim: u64,
    pub looked: usize,
    pub hand: usize,
}

// Plan: the first `count` of the moves, in the order of making, and zeros behind them.
#[repr(C)]
#[derive(Drop)]
pub struct BoughladderPlan {
    pub refusal: u32,
    pub count: usize,
    pub place: usize,
    pub slot: usize,
    pub moves: [MoveRecord; 4],
}

#[repr(C)]
#[derive(Drop)]
pub struct BoughladderListing {
    pub refusal: u32,
    pub count: usize,
}

// Judge, which refuses nothing. The condition is 0 for a yes, else the first that is broken, 1 to 8; then at is the lowest run, slot, counter or place that breaks it.
#[repr(C)]
#[derive(Drop)]
pub struct BoughladderJudgement {
    pub condition: u32,
    pub at: usize,
}

// What a reply tells as its refusal, in 32 bits: a refusal's number, or one that the caller has.
pub trait ReplyNumber: Numbered {
    fn reply_number(self) -> u32
        ensures { result ≡ Self.number self };
}

impl ReplyNumber for Refusal {
    fn reply_number(self) -> u32 {
        u32::from(self)
    }
}

impl ReplyNumber for u32 {
    fn reply_number(self) -> u32 {
        self
    }
}

// Requires a number that fits 16 bits; document 01 has none larger.
pub fn dress_reading<E: ReplyNumber>(told: Result<Reading, E>) -> BoughladderReading
    requires { number (said_with E.number read_as told) < 65536 }
    ensures { result ≡ reading_clothes (said_with E.number read_as told) }
{
    let nothing = BoughladderReading {
        refusal: 0,
        kind: 0,
        permission: 0,
        left: 0,
    };
    match told {
        Ok(Reading::Absent) => nothing,
        Ok(Reading::Fresh { permission, left }) => BoughladderReading {
            kind: 1,
            permission,
            left,
            ..nothing
        },
        Ok(Reading::Old { left }) => BoughladderReading {
            kind: 2,
            left,
            ..nothing
        },
        Ok(Reading::Ahead) => BoughladderReading { kind: 3, ..nothing },
        Err(refusal) => BoughladderReading {
            refusal: refusal.reply_number() as u16,
            ..nothing
        },
    }
}

impl From<Result<Reading, Refusal>> for BoughladderReading {
    ghost from_gives = { λ told reply. reply ≡ reading_clothes (said_reading told) };

    fn from(told: Result<Reading, Refusal>) -> BoughladderReading {
        dress_reading(told)
    }
}

impl<E: ReplyNumber> From<Result<Option<usize>, E>> for BoughladderFinding {
    ghost from_gives = { λ told reply. reply ≡ finding_clothes (said_with E.number found_at told) };

    fn from(told: Result<Option<usize>, E>) -> BoughladderFinding {
        match told {
            Ok(None) => BoughladderFinding {
                refusal: 0,
                kind: 0,
                place: 0,
            },
            Ok(Some(place)) => BoughladderFinding {
                refusal: 0,
                kind: 9,
                place,
            },
            Err(refusal) => BoughladderFinding {
                refusal: refusal.reply_number(),
                kind: 0,
                place: 0,
            },
        }
    }
}

impl<E: ReplyNumber> From<Result<Stored, E>> for BoughladderSetting {
    ghost from_gives = { λ told reply. reply ≡ setting_clothes (said_with E.number stored_as told) };

    fn from(told: Result<Stored, E>) -> BoughladderSetting {
        match told {
            Ok(Stored { visits, moves }) => BoughladderSetting {
                refusal: 0,
                visits,
                moves,
            },
            Err(refusal) => BoughladderSetting {
                refusal: refusal.reply_number(),
                visits: 0,
                moves: 0,
            },
        }
    }
}

impl<E: ReplyNumber> From<Result<Plan, E>> for BoughladderPlan {
    ghost from_gives = { λ told reply. reply ≡ plan_dressed E.number told };

    fn from(told: Result<Plan, E>) -> BoughladderPlan {
        match told {
            Ok(plan) => {
                let moves = plan.moves;
                BoughladderPlan {
                    refusal: 0,
                    count: plan.count,
                    place: plan.place,
                    slot: plan.slot,
                    moves,
                }
            }
            Err(no_plan) => BoughladderPlan {
                refusal: no_plan.reply_number(),
                count: 0,
                place: 0,
                slot: 0,
                moves: [NO_MOVE; 4],
            },
        }
    }
}

// A call that tells no more than that it was done: a step, be it a move or the final store, delete, fresh.
pub fn dress_done<E: ReplyNumber>(told: Result<(), E>) -> u32
    ensures moved { result ≡ number (said_with E.number (λ _. move_made) told) }
    ensures entered { result ≡ number (said_with E.number (λ _. entry_made) told) }
    ensures deleted { result ≡ number (said_with E.number (λ _. deleted) told) }
    ensures started { result ≡ number (said_with E.number (λ _. started) told) }
{
    match told {
        Ok(()) => 0,
        Err(refusal) => refusal.reply_number(),
    }
}

// With the hand that came back.
pub fn dress_evicting<E: ReplyNumber>(told: Result<Evicted, E>, hand: usize) -> BoughladderEvicting
    ensures { result ≡ turned_clothes hand (said_with E.number (evicted_as hand) told) }
{
    match told {
        Ok(Evicted { victim, looked }) => BoughladderEvicting {
            refusal: 0,
            victim,
            looked,
            hand,
        },
        Err(refusal) => BoughladderEvicting {
            refusal: refusal.reply_number(),
            victim: 0,
            looked: 0,
            hand,
        },
    }
}

// Whatever the buffer holds.
impl<E: ReplyNumber> From<Result<usize, E>> for BoughladderListing {
    ghost from_gives = { λ told reply. (buffer : List ℕ) → reply ≡ listing_clothes (said_with E.number (listed_as buffer) told) };

    fn from(told: Result<usize, E>) -> BoughladderListing {
        match told {
            Ok(count) => BoughladderListing { refusal: 0, count },
            Err(refusal) => BoughladderListing {
                refusal: refusal.reply_number(),
                count: 0,
            },
        }
    }
}

impl From<Result<(), (u32, usize)>> for BoughladderJudgement {
    ghost from_gives = { λ told reply. reply ≡ judgement_clothes (numbered told) };

    fn from(told: Result<(), (u32, usize)>) -> BoughladderJudgement {
        match told {
            Ok(()) => BoughladderJudgement {
                condition: 0,
                at: 0,
            },
            Err((condition, at)) => BoughladderJudgement { condition, at },
        }
    }
}

impl From<Result<(), Broken>> for BoughladderJudgement {
    ghost from_gives = { λ told reply. reply ≡ judgement_clothes (said told) };

    fn from(told: Result<(), Broken>) -> BoughladderJudgement {
        told.map_err(|no| (u32::from(no.condition), no.at)).into()
    }
}
