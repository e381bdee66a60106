//! The text that is made of a seed.

ghost use Rattle.std.specs.Prelude.{◌≡◌, IfOk, string_bytes};
ghost use Rattle.bop_gen.specs.GeneratedText.{text_of};

use bop_ends::OutOfMemory;
use std::alloc::Global;

/// The text of a program that runs so many regions and prints numbers that hang on a seed.
pub fn source_of(alloc: Global, seed: u32, regions: u32) -> Result<String, OutOfMemory>
    ensures { IfOk result (λ text. string_bytes text ≡ text_of seed regions) }
{
    let text = format!(in alloc;
        "\
#include <stdio.h>\n\
#include \"bop.h\"\n\
#define REGIONS {regions}\n\
#define SEED {seed}u\n\
unsigned part[16384];\n\
unsigned total;\n\
BOP_PRIVATE unsigned tmp[8];\n\
void print(unsigned n) {{\n\
\x20 if (n > 9u) print(n / 10u);\n\
\x20 putchar('0' + n % 10u);\n\
}}\n\
int main(void) {{\n\
\x20 unsigned i;\n\
\x20 unsigned j;\n\
\x20 unsigned x;\n\
\x20 for (i = 0u; i < REGIONS; i = i + 1u) {{\n\
\x20   BeginPPR(1);\n\
\x20   x = SEED + i;\n\
\x20   for (j = 0u; j < 8u; j = j + 1u) {{\n\
\x20     x = x * 1664525u + 1013904223u;\n\
\x20     tmp[j] = x >> 16;\n\
\x20   }}\n\
\x20   j = (i % 16u) * 1024u;\n\
\x20   part[j] = part[j] + tmp[x % 8u] % 1000u;\n\
\x20   if ((x >> 16) % 4u == 0u) total = total + 1u;\n\
\x20   EndPPR(1);\n\
\x20 }}\n\
\x20 for (i = 0u; i < 16u; i = i + 1u) {{\n\
\x20   print(part[i * 1024u]);\n\
\x20   putchar('\\n');\n\
\x20 }}\n\
\x20 print(total);\n\
\x20 putchar('\\n');\n\
\x20 return 0;\n\
}}\n\
"
    )?;
    Ok(text)
}
