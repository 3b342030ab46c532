// The functions that an answer may be of, by their numbers and names (docs/LISTS.md).
ghost use Rattle.std.specs.Prelude.{Some};
ghost use Rattle.answer_list.specs.Functions.{NamesFunction, function_name};

use std::fmt;

// A function; its number is its discriminant.
#[derive(Clone, Copy, Debug, PartialEq, Eq)]
pub enum Function {
    Exp = 1,
    Ln = 2,
    Log10 = 3,
    TenTo = 4,
    LnGamma = 5,
    NormalDistribution = 6,
    MakeGaussianKernel = 7,
    AdaptiveFilterSize = 8,
    Making = 9,
    Add = 10,
    Pop = 11,
    Run = 12,
    ClipCount = 13,
    Score = 14,
    PairSum = 15,
    Log10Sum = 16,
    RegionProgram = 17,
    Sheet = 18,
    CellsNeeded = 19,
    SetScore = 20,
}

// How many functions there are.
pub const FUNCTIONS: usize = 20;

impl Function {
    // All of them, in the order of their numbers (`all_in_order` in specs/Functions.antt).
    pub const ALL: [Function; FUNCTIONS] = [
        Function::Exp,
        Function::Ln,
        Function::Log10,
        Function::TenTo,
        Function::LnGamma,
        Function::NormalDistribution,
        Function::MakeGaussianKernel,
        Function::AdaptiveFilterSize,
        Function::Making,
        Function::Add,
        Function::Pop,
        Function::Run,
        Function::ClipCount,
        Function::Score,
        Function::PairSum,
        Function::Log10Sum,
        Function::RegionProgram,
        Function::Sheet,
        Function::CellsNeeded,
        Function::SetScore,
    ];
}

// A number that is no function's. It is counted, and printed nowhere, so it has no `Display`.
#[derive(Clone, Copy, Debug, PartialEq, Eq)]
pub struct UnknownFunction;

impl TryFrom<u64> for Function {
    type Error = UnknownFunction;

    ghost try_from_gives = { NamesFunction };

    fn try_from(number: u64) -> Result<Function, UnknownFunction> {
        // A `match`, and no search of `ALL`: in each arm the law `NamesFunction` computes; by `find` its proof did not close.
        match number {
            1 => Ok(Function::Exp),
            2 => Ok(Function::Ln),
            3 => Ok(Function::Log10),
            4 => Ok(Function::TenTo),
            5 => Ok(Function::LnGamma),
            6 => Ok(Function::NormalDistribution),
            7 => Ok(Function::MakeGaussianKernel),
            8 => Ok(Function::AdaptiveFilterSize),
            9 => Ok(Function::Making),
            10 => Ok(Function::Add),
            11 => Ok(Function::Pop),
            12 => Ok(Function::Run),
            13 => Ok(Function::ClipCount),
            14 => Ok(Function::Score),
            15 => Ok(Function::PairSum),
            16 => Ok(Function::Log10Sum),
            17 => Ok(Function::RegionProgram),
            18 => Ok(Function::Sheet),
            19 => Ok(Function::CellsNeeded),
            20 => Ok(Function::SetScore),
            _ => Err(UnknownFunction),
        }
    }
}

// The name by which a replay tells how many answers agree.
impl fmt::Display for Function {
    ghost output = { λ function. Some (function_name function) };

    fn fmt<W: fmt::Write>(&self, f: &mut fmt::Formatter<W>) -> fmt::Result {
        f.write_str(match self {
            Function::Exp => "exp",
            Function::Ln => "ln",
            Function::Log10 => "log10",
            Function::TenTo => "ten_to",
            Function::LnGamma => "ln_gamma",
            Function::NormalDistribution => "normal_distribution",
            Function::MakeGaussianKernel => "make_gaussian_kernel",
            Function::AdaptiveFilterSize => "adaptive_filter_size",
            Function::Making => "making",
            Function::Add => "add",
            Function::Pop => "pop",
            Function::Run => "run",
            Function::ClipCount => "clip count",
            Function::Score => "score",
            Function::PairSum => "approximate_log10_sum_log10_pair",
            Function::Log10Sum => "log10_sum_log10",
            Function::RegionProgram => "region program",
            Function::Sheet => "sheet",
            Function::CellsNeeded => "cells needed",
            Function::SetScore => "score of a set",
        })
    }
}
