// The answer that the rulings of all lists give, in their order.
ghost use Rattle.std.specs.Prelude.{◌≡◌, map};
ghost use Rattle.ruling.specs.Cases.{ruling_of, answer_of};
ghost use Rattle.ruling.specs.Answers.{answered};
ghost use Rattle.ruling.specs.Law.{DrawnAndNoOther, ValidExactly, RevokedExactly};
ghost use Rattle.ruling.specs.Law.{MoreListsLeadFurther, FinalsStay, FinalsDifferInKindOrDate};

use crate::answers::*;
use crate::cases::*;

// What the lists' rulings, in their order, answer together.
pub fn answer(rulings: &[Ruling]) -> Answer
    ensures answer { answer_of result ≡ answered (map ruling_of rulings.now) }
    ensures drawn { DrawnAndNoOther }
    ensures valid { ValidExactly }
    ensures revoked { RevokedExactly }
    ensures further { MoreListsLeadFurther }
    ensures stay { FinalsStay }
    ensures differ { FinalsDifferInKindOrDate }
{
    rulings.iter().enumerate().fold(
        Answer::NoList,
        |answer, (number, ruling)| answer.with(number, *ruling),
    )
}
