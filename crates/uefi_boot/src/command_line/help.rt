//! The usage texts of the program and its commands.

pub(crate) const PROGRAM: &str = "Usage: uefi_boot [OPTIONS] [DIRECTORY | FILE ..]
       uefi_boot COMMAND [OPTIONS]
List the boot entries of this machine, of a directory or of files, check them or change them.

Without an argument, list the variables of this machine, or read one boot entry from standard
input if that is not a terminal. DIRECTORY is one such as /sys/firmware/efi/efivars, FILE is
named Boot0000 or Boot0000-GUID, and - is standard input.

Commands (uefi_boot help COMMAND describes each one):
  check                report what would keep firmware or this machine from booting
  create               add an entry, at the front of the boot order unless you say otherwise
  delete NUMBER        delete an entry
  order NUMBER ..      set the boot order, or delete it: none
  first NUMBER         move an entry to the front of the boot order
  next NUMBER          boot an entry once, on the next boot, or cancel that: none
  activate NUMBER      let firmware try an entry by itself
  deactivate NUMBER    keep firmware from trying an entry by itself
  rename NUMBER TEXT   change the description of an entry
  timeout SECONDS      set how long firmware waits before it boots by itself: also forever, none

Options:
  --json               print as JSON
  -h, --help           print this help
  --version            print the version

Exit status:
  0  success
  1  a variable is malformed, or the change is impossible
  2  reading standard input or writing standard output failed
  3  out of memory
  4  a variable cannot be read
  5  the command line is wrong
  6  a variable cannot be written
";

pub(crate) const CHECK: &str = "Usage: uefi_boot check [OPTIONS]
Report what would keep firmware or this machine from booting. The exit status is 1 if anything is
wrong.

  --json                 print as JSON
  --variables DIRECTORY  check the variables there (default: /sys/firmware/efi/efivars)
  --esp DIRECTORY        look for the files of entries where this EFI system partition is mounted
  --disks DIRECTORY      look for the partitions of entries among these links, named by GUID
                         (default for this machine: /dev/disk/by-partuuid)
";

pub(crate) const CREATE: &str = "Usage: uefi_boot create --description TEXT --loader FILE [OPTIONS]
       uefi_boot create --description TEXT --path PATH | --interface NAME [OPTIONS]
Add a boot entry.

  --description TEXT     name to show in the boot menu
  --loader FILE          loader on a mounted EFI system partition, such as
                         /boot/efi/EFI/debian/shimx64.efi; with --disk or --partuuid, its path
                         on that partition, such as /EFI/debian/shimx64.efi
  --disk DISK            disk that contains the loader, such as /dev/nvme0n1
  --partition N          number of the partition on that disk
  --partuuid GUID        partition that contains the loader, as lsblk -o PARTUUID prints it
  --disk GUID            partition that this machine may lack, with --partition and
  --start N, --size N    its first block and its number of blocks (default: 0)
  --full-path            write the path of the disk too, not only that of the partition
  --path PATH            device path, as uefi_boot prints it
  --interface NAME       boot from the network over this interface, such as eth0, by IPv4
  --data TEXT            optional data for the loader, in UTF-16
  --data-ascii TEXT      the same in ASCII
  --data-hex BYTES       the same in hexadecimal
  --data-file FILE       the same from a file, or from standard input: -
  --number NUMBER        number of the entry, such as 001F (default: the lowest free number)
  --last                 put the entry at the end of the boot order (default: the front)
  --index N              put the entry after the first N others in the boot order
  --no-order             leave the boot order as it is
  --driver, --sysprep    create Driver#### or SysPrep#### instead
  --inactive             create an entry that firmware does not try by itself
  --force                create an entry with a path that firmware rejects
  --variables DIRECTORY  change the variables there (default: /sys/firmware/efi/efivars)
  --dry-run              show what would change, but write nothing
";

pub(crate) const DELETE: &str = "Usage: uefi_boot delete NUMBER [OPTIONS]
Delete an entry and remove it from BootOrder and BootNext.

  --driver, --sysprep    delete Driver#### or SysPrep#### instead
  --variables DIRECTORY  change the variables there (default: /sys/firmware/efi/efivars)
  --dry-run              show what would change, but write nothing
";

pub(crate) const ORDER: &str = "Usage: uefi_boot order NUMBER .. | none | --unique [OPTIONS]
Set the boot order to these entries, or delete it.

  --unique               keep the present order, but each entry only at its first place
  --driver, --sysprep    change DriverOrder or SysPrepOrder instead
  --force                replace a malformed order
  --variables DIRECTORY  change the variables there (default: /sys/firmware/efi/efivars)
  --dry-run              show what would change, but write nothing
";

pub(crate) const FIRST: &str = "Usage: uefi_boot first NUMBER [OPTIONS]
Move an entry to the front of the boot order, or put it there.

  --driver, --sysprep    change DriverOrder or SysPrepOrder instead
  --variables DIRECTORY  change the variables there (default: /sys/firmware/efi/efivars)
  --dry-run              show what would change, but write nothing
";

pub(crate) const NEXT: &str = "Usage: uefi_boot next NUMBER | none [OPTIONS]
Boot an entry once, on the next boot; none cancels.

  --force                replace a malformed BootNext
  --variables DIRECTORY  change the variables there (default: /sys/firmware/efi/efivars)
  --dry-run              show what would change, but write nothing
";

pub(crate) const ACTIVATE: &str = "Usage: uefi_boot activate NUMBER [OPTIONS]
Let firmware try an entry by itself.

  --driver, --sysprep    change Driver#### or SysPrep#### instead
  --variables DIRECTORY  change the variables there (default: /sys/firmware/efi/efivars)
  --dry-run              show what would change, but write nothing
";

pub(crate) const DEACTIVATE: &str = "Usage: uefi_boot deactivate NUMBER [OPTIONS]
Keep firmware from trying an entry by itself.

  --driver, --sysprep    change Driver#### or SysPrep#### instead
  --variables DIRECTORY  change the variables there (default: /sys/firmware/efi/efivars)
  --dry-run              show what would change, but write nothing
";

pub(crate) const RENAME: &str = "Usage: uefi_boot rename NUMBER TEXT [OPTIONS]
Change the description of an entry.

  --driver, --sysprep    change Driver#### or SysPrep#### instead
  --variables DIRECTORY  change the variables there (default: /sys/firmware/efi/efivars)
  --dry-run              show what would change, but write nothing
";

pub(crate) const TIMEOUT: &str = "Usage: uefi_boot timeout SECONDS | forever | none [OPTIONS]
Set how many seconds firmware waits before it boots by itself. With forever it waits for a choice,
and none lets firmware choose.

  --force                replace a malformed Timeout
  --variables DIRECTORY  change the variables there (default: /sys/firmware/efi/efivars)
  --dry-run              show what would change, but write nothing
";
