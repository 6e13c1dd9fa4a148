//! A source with as many functions as a number says, for runs with more work.
#![tactic(auto)]

ghost use Rattle.std.specs.Prelude.{◌≡◌, ◌++◌, ◌<◌, ◌≤◌, string_bytes, IfOk, OnOk};
ghost use Rattle.std.specs.List.{flat_map, range_with_len};
ghost use Rattle.work_maker.specs.declared.TheConstants.{MOST_FUNCTIONS};
ghost use Rattle.work_maker.specs.MadeSource.{function_line, call_line, made_source};

use aegis_num::OutOfMemory;
use std::alloc::Global;

/// The most functions that a made source may have. The fewest is one.
pub const MOST_FUNCTIONS: u32 = 48;

/// The function with this number: it adds to an element of the array, mixes its argument into an element of its
/// own of the logged array, and answers an element of the array.
fn function(alloc: Global, k: u32) -> Result<String, OutOfMemory>
    requires { k < MOST_FUNCTIONS }
    ensures { IfOk result (λ line. string_bytes line ≡ function_line k) }
{
    let j = k + 1;
    Ok(format!(in alloc;
        "int f{k}(int x){{a[x&255]=a[x&255]+{j};g[{k}]=g[{k}]^x;return a[(x+{k})&255];}}\n"
    )?)
}

/// The call of the function with this number.
fn call(alloc: Global, k: u32) -> Result<String, OutOfMemory>
    requires { k < MOST_FUNCTIONS }
    ensures { IfOk result (λ line. string_bytes line ≡ call_line k) }
{
    Ok(format!(in alloc; "s=f{k}(s+i);\n")?)
}

/// Adds the first functions, so many of them.
fn push_functions(alloc: Global, text: &mut Vec<u8>, n: u32) -> Result<(), OutOfMemory>
    requires { n ≤ MOST_FUNCTIONS }
    ensures { OnOk result
        (text.new.items ≡ text.old.items ++ flat_map function_line (range_with_len 0 n)) }
{
    for k in 0..n {
        let line = function(alloc, k)?;
        text.extend_from_slice(line.as_bytes())?;
    }
    Ok(())
}

/// Adds the calls of the first functions, so many of them.
fn push_calls(alloc: Global, text: &mut Vec<u8>, n: u32) -> Result<(), OutOfMemory>
    requires { n ≤ MOST_FUNCTIONS }
    ensures { OnOk result
        (text.new.items ≡ text.old.items ++ flat_map call_line (range_with_len 0 n)) }
{
    for k in 0..n {
        let line = call(alloc, k)?;
        text.extend_from_slice(line.as_bytes())?;
    }
    Ok(())
}

/// The source with `n` functions, which `main` calls one after the other in sixteen turns.
pub fn make_source(alloc: Global, n: u32) -> Result<Vec<u8>, OutOfMemory>
    requires some { 1 ≤ n }
    requires most { n ≤ MOST_FUNCTIONS }
    ensures { IfOk result (λ text. text.items ≡ made_source n) }
{
    let mut text = Vec::new(alloc);
    text.extend_from_slice(b"int a[256];\n__logged int g[64];\n")?;
    push_functions(alloc, &mut text, n)?;
    text.extend_from_slice(b"int main(void){int i;int s;for(i=0;i<16;i=i+1){\n")?;
    push_calls(alloc, &mut text, n)?;
    text.extend_from_slice(b"release(s);}check();return 0;}\n")?;
    Ok(text)
}
