// The base b of a digit group and the count k of its digits.
ghost use Rattle.std.specs.Prelude.{◌≡◌, ◌-◌, ◌^◌};
ghost use Rattle.meaning.specs.Known.{top_part};
ghost use Rattle.groups.specs.Cells.{GroupOf};

// As the rules of reading leave them: b is at least 2, k from 1 to 31, and c = b^k small. (The `Digits` of `rules` are those of a line that is still
// tested: their base may be any i64 from 2 on, and their c greater than any machine word, so that `power` there can fail.)
#[derive(Clone, Copy)]
pub struct Digits {
    pub base: u32,
    pub count: usize,
    pub ghost group: { GroupOf base count },
}

impl Digits {
    // c = b^k. The cast keeps k, which is 31 at most (FORMAT 4.2).
    pub fn power(self) -> u64
        ensures { result ≡ self.base ^ self.count }
    {
        u64::from(self.base).pow(self.count as u32)
    }

    // b^(k-1), for which the top digit counts.
    pub(crate) fn top_power(self) -> u32
        ensures { result ≡ self.base ^ (self.count - 1) }
    {
        self.base.pow(self.count as u32 - 1)
    }

    // B = (b-1)·b^(k-1).
    #[tactic(auto, unfolding(meaning::specs::Known::top_part))]
    pub fn top_part(self) -> u32
        ensures { result ≡ top_part self.base self.count }
    {
        (self.base - 1) * self.top_power()
    }
}
