// The settings for C callers: what crate block_settings answers, as numbers in a lent array.
// The code is a number, as C gives it: what is promised of a number that is no code needs it so.
#![tactic(auto)]

ghost use Rattle.std.specs.Prelude.{◌≡◌};
ghost use Rattle.lists.specs.Written.{written};
ghost use Rattle.block_choice.specs.Promises.{Answered};
ghost use Rattle.block_settings.specs.Answers.{settings_answer};
ghost use Rattle.c_results.specs.Promises.{Returned};
ghost use Rattle.c_settings.specs.Results.{setting_at, settings_used, settings_result, settings_after};

use c_results::CountResult;
use refusals::refusal_number;
use settings_numbers::{MAX_SETTINGS, Numbers, settings_numbers};

// ---- into a lent array: the first places are written, the others stay
fn settings_used(numbers: Numbers) -> usize
    ensures { result ≡ settings_used numbers }
{
    numbers.count.min(MAX_SETTINGS)
}

fn copy_settings(numbers: Numbers, out: &mut [f32; MAX_SETTINGS])
    ensures { out.new ≡ written (setting_at numbers) (settings_used numbers) out.old }
{
    for i in 0..settings_used(numbers) {
        out[i] = numbers.places[i];
    }
}

pub fn settings(block: &[u8], code: u32, out: &mut [f32; MAX_SETTINGS]) -> CountResult
    ensures { Returned (λ a. (result ≡ settings_result a) × (out.new ≡ settings_after a out.old)) (Answered settings_answer block.now code) }
{
    let answer = block_settings::settings(block, code);
    match answer {
        Ok(shape) => {
            let numbers = settings_numbers(shape);
            copy_settings(numbers, out);
            CountResult {
                refusal: 0,
                count: settings_used(numbers) as u32,
            }
        }
        Err(why) => CountResult {
            refusal: refusal_number(why),
            count: 0,
        },
    }
}
