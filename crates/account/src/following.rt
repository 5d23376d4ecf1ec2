//! An account followed from new, through any calls by anybody.

ghost use Rattle.std.specs.Prelude.{List, [], ◌∷◌};
ghost use Rattle.account.specs.Histories.{Turn, turn, Tied, Followed};

use crate::client::{AccountClient, Answer, Call};
use crate::state::Account;
use bands::BandRule;
use quantity::Power;

/// Carries a call out, so that a history that is tied to the account goes on with this call and its answer.
fn carry_out<R: BandRule + Drop>(account: &mut Account<R>, call: Call<R>) -> Answer
    ensures { (first : R) (history : List (Turn R)) → Tied R.lowest R.highest first history account.old.rule account.old.total.units account.old.count → Tied R.lowest R.highest first (turn call result ∷ history) account.new.rule account.new.total.units account.new.count }
{
    match call {
        Call::Replace(rule) => {
            account.replace(rule);
            Answer::Done
        }
        Call::Add(figure) => match account.add(figure) {
            Ok(()) => Answer::Done,
            Err(why) => Answer::Refused(why),
        },
        Call::Total => Answer::Told(account.total()),
    }
}

/// Follows a new account for at most so many turns: the client chooses each call and is told its answer.
/// Whatever it chooses, the total at the end is the least change that brings the figures taken inside the bands that they met.
pub fn follow<R: BandRule + Drop, C: AccountClient<R>>(client: &mut C, rule: R, turns: u64) -> Power
    ensures { C.AccountClient.told [] client.old → Followed R.BandRule.lowest R.BandRule.highest C.AccountClient.told C.AccountClient.chose rule turns client.new result.units }
{
    let mut account = Account::new(rule);
    for _ in 0..turns {
        match client.choose() {
            Some(call) => {
                let answer = carry_out(&mut account, call);
                client.note(answer);
            }
            None => break,
        }
    }
    account.total()
}
