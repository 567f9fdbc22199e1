// Integer characters.
ghost use Rattle.std.specs.Prelude.{◌≡◌};
ghost use Rattle.text.specs.Classes.{int_char};
ghost use Rattle.text.specs.Runs.{run};

use hexes::is_int_char;

// How many integer characters the part begins with.
pub fn run_len(s: &[u8]) -> usize
    ensures { result ≡ run int_char s.now }
{
    s.iter().take_while(|c| is_int_char(**c)).count()
}
