/// What `--help` prints.
pub const HELP: &str = "\
dawsettee: a disk cache for compiled shaders

Usage:
  dawsettee key [OPTIONS] <CONTENT       prints the key of a content: 40 digits
  dawsettee put [OPTIONS] KEY <BLOB      keeps a blob under a key: prints stored or kept
  dawsettee get [OPTIONS] KEY >BLOB      writes the blob of a key
  dawsettee settings                     prints the settings, one in a line
  dawsettee --help | --version           prints this text, or the version (-h, help, -V)

KEY is 40 hexadecimal digits of either case. A blob and a content have at most
16777216 bytes. An option is --NAME=VALUE or --NAME VALUE, and stands once; behind
-- no word is an option.

Options of key, put and get:
  --id=TEXT        the driver's id, at most 255 bytes (mesa)
  --gpu=TEXT       the GPU's name, at most 255 bytes (generic)
  --flags=NUMBER   the driver's flags, below 2^64 (0)
Options of put and get:
  --root=DIR       the folder of the store (as the variables say)
  --layout=LAYOUT  folder, database or foz (as the variables say); folder alone is
                   built so far
Options of put:
  --limit=BYTES    how large the store may grow, at most 2^40 (as the variables say);
                   it isn't looked at yet
  --meta=KEYS      the keys of the blob's sources, 1 to 64 with commas between (none)

Variables:
  MESA_SHADER_CACHE_DISABLE      1, true, yes, y or t turns the cache off
  MESA_DISK_CACHE_MULTI_FILE     true asks for the layout folder
  MESA_DISK_CACHE_SINGLE_FILE    true asks for the layout foz; else it is database
  MESA_SHADER_CACHE_DIR          the folder that the store's own stands in
  XDG_CACHE_HOME                 the same, where the first isn't set
  HOME                           the same is its .cache, where neither is set
  MESA_SHADER_CACHE_MAX_SIZE     digits and K, M or G, or digits alone for G (1G); it
                                 isn't looked at yet
  MESA_DISK_CACHE_READ_ONLY_FOZ_DBS
                                 at most 8 names of read-only databases, with commas
                                 between; they aren't asked yet
  MESA_DISK_CACHE_READ_ONLY_FOZ_DBS_DYNAMIC_LIST
                                 the path of a file that names more; it isn't read yet
  DAWSETTEE_EXPLAIN              where it is set and not empty, or standard error is a
                                 terminal, one more line there says why: the path that
                                 failed and the system's reason, the word that isn't
                                 understood, or the option that would do

Exit status, and what stands on standard error:
   0  (nothing)                           done
   1  miss                                the store holds no blob for this key and driver
   2  usage: ...                          the words are none of the above
   3  bad key                             KEY or one of --meta isn't 40 digits
   4  busy                                others held a lock through all 64 tries
   5  read fault                          standard input failed
   6  write fault                         standard output failed
   7  files fault                         a file couldn't be opened, read or written
   8  too large: N                        so many bytes of input are too many
   9  cache is off                        a variable turns it off
  10  no memory                           memory ran out
  12  no cache folder                     neither --root nor a variable says where it is
  14  too many read-only databases: N     more than 8 are named
  17  layout not built                    put and get have the layout folder alone

Examples:
  dawsettee key --id=d --gpu=g <shader.glsl
  dawsettee put --id=d --gpu=g --layout=folder --root=store \\
      a9993e364706816aba3e25717850c26c9cd0d89d <shader.bin
  dawsettee get --id=d --gpu=g --layout=folder --root=store \\
      a9993e364706816aba3e25717850c26c9cd0d89d >shader.out
  HOME=/home/u dawsettee settings
";

/// What `--version` prints.
pub const VERSION: &str = "dawsettee 0.1.0\n";
