// The functions of host_market.

ghost use Rattle.std.specs.Prelude.{◌≡◌, length};
ghost use Rattle.market_spec.specs.File.{fault_of};
ghost use Rattle.market_spec.specs.Sound.{values_of, file_of};
ghost use Rattle.market_spec.specs.FileBytes.{values_bytes, values_answer, laid_if0, values_given, written_answer};
ghost use Rattle.host_market.specs.Findings.{finding_paper};

use host_market::Finding;

#[unsafe(no_mangle)]
pub extern "C" fn rk_market_check(file: &[u8]) -> Finding
    ensures { finding_paper result ≡ fault_of file.now }
{
    host_market::rk_market_check(file)
}

#[unsafe(no_mangle)]
pub extern "C" fn rk_market_values(file: &[u8], out: &mut [u8]) -> Finding
    ensures { (finding_paper result ≡ values_answer (length out.old) file.now)
        × (out.new ≡ laid_if0 (values_answer (length out.old) file.now) (values_bytes (values_of file.now)) out.old) }
{
    host_market::rk_market_values(file, out)
}

#[unsafe(no_mangle)]
pub extern "C" fn rk_market_write(values: &[u8], out: &mut [u8]) -> Finding
    ensures { (finding_paper result ≡ written_answer (length out.old) values.now)
        × (out.new ≡ laid_if0 (written_answer (length out.old) values.now) (file_of (values_given values.now)) out.old) }
{
    host_market::rk_market_write(values, out)
}
