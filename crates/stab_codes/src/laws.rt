ghost use Rattle.std.specs.Prelude.{◌≡◌};
ghost use Rattle.stab_codes.specs.declared.code.TheConstants.{N_GSYM, N_FUN, N_STSYM, N_LCSYM, N_MAIN, N_ROSYM, N_OPT, N_RSYM, N_SLINE, N_SO, N_LSYM, N_BINCL, N_SOL, N_PSYM, N_EINCL, N_LBRAC, N_EXCL, N_RBRAC};

/// What each stab code is.
pub fn codes_are()
    ensures n_gsym { N_GSYM ≡ 0x20 }
    ensures n_fun { N_FUN ≡ 0x24 }
    ensures n_stsym { N_STSYM ≡ 0x26 }
    ensures n_lcsym { N_LCSYM ≡ 0x28 }
    ensures n_main { N_MAIN ≡ 0x2a }
    ensures n_rosym { N_ROSYM ≡ 0x2c }
    ensures n_opt { N_OPT ≡ 0x3c }
    ensures n_rsym { N_RSYM ≡ 0x40 }
    ensures n_sline { N_SLINE ≡ 0x44 }
    ensures n_so { N_SO ≡ 0x64 }
    ensures n_lsym { N_LSYM ≡ 0x80 }
    ensures n_bincl { N_BINCL ≡ 0x82 }
    ensures n_sol { N_SOL ≡ 0x84 }
    ensures n_psym { N_PSYM ≡ 0xa0 }
    ensures n_eincl { N_EINCL ≡ 0xa2 }
    ensures n_lbrac { N_LBRAC ≡ 0xc0 }
    ensures n_excl { N_EXCL ≡ 0xc2 }
    ensures n_rbrac { N_RBRAC ≡ 0xe0 }
{}
