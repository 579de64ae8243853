// What reads a program: its bytes, with how many principals and roles its policy has. It goes from call to call by reference:
// that is one register, where a slice is two words in memory.
ghost use Rattle.std.specs.Prelude.{◌<◌, length};
ghost use Rattle.program.specs.Answer.{place_limit};

#[derive(Clone, Copy)]
pub struct Reader<'a> {
    pub program: &'a [u8],
    pub principals: u8,
    pub roles: u8,
    // Every position in it, and its end, is a place that a refusal can show.
    ghost short: { length program.now < place_limit },
}
