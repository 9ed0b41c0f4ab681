// "The table of numbers": what each answer's first number says, and that number. A number more is a variant and a line of `number_of`, in
// specs/Numbers.antt, and of `From` here.
ghost use Rattle.std.specs.Prelude.{◌≡◌};
ghost use Rattle.system.specs.declared.numbers.Verdict.TheVariants.{Faulty, Stopping};
ghost use Rattle.system.specs.Numbers.{number_of};

// What is wrong with a book.
#[derive(Clone, Copy, PartialEq, Eq, Debug)]
pub enum Fault {
    // "a word the book needs is missing"
    Missing,
    // "a count or length outside its range"
    Range,
    // "an order entry above the argument count"
    Entry,
    // "a side's word is neither name nor placeholder"
    Unknown,
    // "a side is complete too early, or not at its last word"
    Unbalanced,
    // "a left side starts with a placeholder"
    VariableHead,
    // "a left placeholder is not the next one, or a right one is not in the left"; 02, F-7: "in a left side is now for a placeholder above the
    // count of different ones before it"
    Unbound,
    // "words after the last rule"
    Trailing,
    // 02, F-2: "a left side starts with a level or either of these words"
    BuiltInHead,
}

// Which limit stops an evaluation.
#[derive(Clone, Copy, PartialEq, Eq, Debug)]
pub enum Limit {
    // "one more step would pass the allowance" (the step limit)
    Spent,
    // "the step would leave the whole cue above 4,096 words"
    Overlong,
    // "an argument would be opened from level 64"
    Nested,
    // 02, F-3: "a step finds fewer than two words left in the record"
    Full,
}

// What an answer's number says.
#[derive(Clone, Copy, PartialEq, Eq, Debug)]
pub enum Verdict {
    // "accepted"
    Taken,
    Faulty(Fault),
    // "the cue is not whole"
    Broken,
    // "answer buffer below 4,096 words, or work buffer below" 12,288 (02, F-5)
    Cramped,
    Stopping(Limit),
    // "the order test failed"
    Unsettled,
    // 02, F-3: "the first pair that is wrong or half"
    Untrue,
    // 02, F-6: "the list's length is not S or a weight is out of range"
    Misweighed,
    // 02, F-6: a "rule that doesn't fall"
    Rising,
    // 02, F-8: "a list of wrong length or a kind above 63"
    Missorted,
    // 02, F-8: a rule that does not pass, as both its sides are not "well-kinded with equal kind", or a placeholder has two
    IllRule,
    // 02, F-8: "a cue that isn't well-kinded"
    IllTerm,
}

impl From<Fault> for Verdict {
    ghost from_gives = { λ f v. v ≡ Faulty f };

    fn from(f: Fault) -> Verdict {
        Verdict::Faulty(f)
    }
}

impl From<Limit> for Verdict {
    ghost from_gives = { λ l v. v ≡ Stopping l };

    fn from(l: Limit) -> Verdict {
        Verdict::Stopping(l)
    }
}

impl From<Verdict> for u32 {
    ghost from_gives = { λ v n. n ≡ number_of v };

    fn from(v: Verdict) -> u32 {
        match v {
            Verdict::Taken => 0,
            Verdict::Faulty(Fault::Missing) => 1,
            Verdict::Faulty(Fault::Range) => 2,
            Verdict::Faulty(Fault::Entry) => 3,
            Verdict::Faulty(Fault::Unknown) => 4,
            Verdict::Faulty(Fault::Unbalanced) => 5,
            Verdict::Faulty(Fault::VariableHead) => 6,
            Verdict::Faulty(Fault::Unbound) => 7,
            Verdict::Faulty(Fault::Trailing) => 8,
            Verdict::Broken => 9,
            Verdict::Cramped => 10,
            Verdict::Stopping(Limit::Spent) => 11,
            Verdict::Stopping(Limit::Overlong) => 12,
            Verdict::Stopping(Limit::Nested) => 13,
            Verdict::Unsettled => 14,
            Verdict::Faulty(Fault::BuiltInHead) => 15,
            Verdict::Stopping(Limit::Full) => 16,
            Verdict::Untrue => 17,
            Verdict::Misweighed => 18,
            Verdict::Rising => 19,
            Verdict::Missorted => 20,
            Verdict::IllRule => 21,
            Verdict::IllTerm => 22,
        }
    }
}
